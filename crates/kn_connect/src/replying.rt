ghost use Rattle.std.specs.Prelude.{◌≡◌};
ghost use Rattle.kn_connect.specs.Replies.{IsReplyStatus, reply_text};

/// The reply of this status to a CONNECT request: 200 where the tunnel is open (RFC 9110, section 9.3.6),
/// and else the refusal by 400, 405, 431, 502 or 503 (RFC 9110, section 15; RFC 6585, section 5), with no
/// content, after which the connection is closed.
#[tactic(auto, unfolding(crate::specs::Replies::reply_text))]
pub fn reply(status: u32) -> &'static str
    requires { IsReplyStatus status }
    ensures { result.now ≡ reply_text status }
{
    match status {
        200 => "HTTP/1.1 200 Connection Established\r\n\r\n",
        400 => "HTTP/1.1 400 Bad Request\r\nContent-Length: 0\r\nConnection: close\r\n\r\n",
        405 => {
            "HTTP/1.1 405 Method Not Allowed\r\nAllow: CONNECT\r\nContent-Length: 0\r\nConnection: close\r\n\r\n"
        }
        431 => {
            "HTTP/1.1 431 Request Header Fields Too Large\r\nContent-Length: 0\r\nConnection: close\r\n\r\n"
        }
        502 => "HTTP/1.1 502 Bad Gateway\r\nContent-Length: 0\r\nConnection: close\r\n\r\n",
        _ => "HTTP/1.1 503 Service Unavailable\r\nContent-Length: 0\r\nConnection: close\r\n\r\n",
    }
}
