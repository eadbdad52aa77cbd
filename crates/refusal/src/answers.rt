// What an answer hands back, in the paper's numbers.
ghost use Rattle.std.specs.Prelude.{◌≡◌};
ghost use Rattle.refusal.specs.Answers.{verdict_in, handed};

use crate::{Answer, Verdict, verdict_number};

// Whether the event was accepted, or why it was refused.
pub fn verdict_in(answer: Answer) -> Verdict
    ensures { result ≡ verdict_in answer }
{
    answer?;
    Ok(())
}

// 0 for accepted, else the refusal's number.
pub fn number(answer: Answer) -> u8
    ensures { result ≡ (handed answer).number }
{
    verdict_number(verdict_in(answer))
}

// 1 where a byte was driven or read, else 0.
pub fn drove(answer: Answer) -> u8
    ensures { result ≡ (handed answer).drove }
{
    u8::from(matches!(answer, Ok(Some(_))))
}

// That byte, else 0.
pub fn byte(answer: Answer) -> u8
    ensures { result ≡ (handed answer).byte }
{
    match answer {
        Ok(Some(b)) => b,
        Ok(None) | Err(_) => 0,
    }
}
