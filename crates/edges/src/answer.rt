ghost use Rattle.std.specs.Prelude.{◌≡◌};
ghost use Rattle.edges.specs.Answers.{answer_refusal};

use tinyjambu::{Fault, Refusal};

// The refusal that an answer is, if the call was not taken.
pub(crate) fn refusal_of<T: Drop>(answer: Result<T, Fault>) -> Option<Refusal>
    ensures { result ≡ answer_refusal answer }
{
    answer.err().map(|fault| fault.refusal)
}
