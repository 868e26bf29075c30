ghost use Rattle.std.specs.Prelude.{◌≡◌, ℕ, List, Result};
ghost use Rattle.kn_connect.specs.declared.answer.ConnectError.{ConnectError};
ghost use Rattle.kn_connect.specs.declared.answer.ConnectAnswer.{ConnectAnswer};
ghost use Rattle.kn_connect.specs.Answers.{Answers, IsGiven, Lasts};

/// Bytes have one answer, and one that wants no more of them lasts. So the answer is the same however the
/// bytes of a connection are cut into pieces.
pub fn answers_are_one()
    ensures one { (bytes : List ℕ) (a b : Result ConnectAnswer ConnectError) → IsGiven a → IsGiven b → Answers bytes a → Answers bytes b → a ≡ b }
    ensures lasts { (bytes : List ℕ) (answer : Result ConnectAnswer ConnectError) → Answers bytes answer → Lasts bytes answer }
{}
