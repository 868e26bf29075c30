ghost use Rattle.std.specs.Prelude.{◌≡◌, ◌<◌};
ghost use Rattle.kn_connect.specs.Replies.{IsReplyStatus, status_and_reason};
ghost use Rattle.kn_connect.specs.Statuses as spec;

use crate::answer::ConnectFault;
use crate::replying::reply;

/// The status that a faulty head is refused with.
pub fn fault_status(fault: ConnectFault) -> u32
    ensures status { result ≡ spec.fault_status fault }
    ensures reply { IsReplyStatus result }
{
    match fault {
        ConnectFault::BadHead => 400,
        ConnectFault::NotConnect => 405,
        ConnectFault::TooLong => 431,
    }
}

/// The status that a request is refused with, by the error with which its dial is refused.
pub fn error_status(error: &str) -> u32
    ensures status { result ≡ spec.error_status error.now }
    ensures reply { IsReplyStatus result }
{
    if error == "bad address" {
        400
    } else if error == "no agent available" {
        503
    } else if error == "dial numbers used up" {
        503
    } else {
        502
    }
}

/// A status and its reason phrase, as the status line of its reply has them.
pub fn status_line(status: u32) -> &'static str
    requires { IsReplyStatus status }
    ensures { result.now ≡ status_and_reason status }
{
    match status {
        200 => "200 Connection Established",
        400 => "400 Bad Request",
        405 => "405 Method Not Allowed",
        431 => "431 Request Header Fields Too Large",
        502 => "502 Bad Gateway",
        _ => "503 Service Unavailable",
    }
}

/// How many bytes the reply of a status has: fewer than 256.
pub fn reply_len(status: u32) -> usize
    requires { IsReplyStatus status }
    ensures length { result ≡ spec.reply_length status }
    ensures short { result < 256 }
{
    reply(status).len()
}
