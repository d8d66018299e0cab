// What a call's answer is to C: the value, or the refusal's number negated.
ghost use Rattle.std.specs.Prelude.{◌≡◌};
ghost use Rattle.run.specs.Answers.{answer_of};

use run::Answer;

pub fn to_c(a: Answer) -> i64
    ensures { result ≡ answer_of a }
{
    match a {
        Ok(value) => i64::from(value),
        Err(r) => -(run::number_of(r) as i64),
    }
}
