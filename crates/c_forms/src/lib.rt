// What the functions for C share: what stands for an acknowledged number, and how an answer is told (specs/Promises.antt).
#![tactic(auto)]

ghost use Rattle.std.specs.Prelude.{◌≡◌};
ghost use Rattle.octets.specs.Refusals.{outcome};
ghost use Rattle.numbers_shortening.specs.Answers.{acknowledged_of};
ghost use Rattle.c_forms.specs.Arguments.{acknowledged_by};
ghost use Rattle.c_forms.specs.Promises.{Answers};

use numbers::FullPn;
use octets::refusal::Refusal;

// The greatest acknowledged number, of which C says first whether there is one.
// Kept: a flag with a number beside it, as C hands over what may be missing.
pub fn acknowledged_by(any: u32, greatest: u64) -> Option<FullPn>
    ensures { acknowledged_of result ≡ acknowledged_by any greatest }
{
    (any != 0).then_some(FullPn(greatest))
}

// What C is told of an answer: 0 with the report of what is given, or a refusal's number with the report as it was.
// Kept: a number and what is reported beside it, as C has no Result.
pub fn report<T: Copy, const N: usize>(answer: Result<[T; N], Refusal>, report: &mut [T; N]) -> u32
    ensures { Answers (outcome (λ numbers. numbers) answer) (λ numbers. numbers) report.old result report.new }
{
    match answer {
        Ok(numbers) => {
            *report = numbers;
            0
        }
        Err(why) => why.number() as u32,
    }
}
