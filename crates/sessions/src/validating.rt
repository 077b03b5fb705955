//! Whether a policy set may be activated.
ghost use Rattle.std.specs.Prelude.{◌≡◌, IfErr, IfOk};
ghost use Rattle.kinds.specs.declared.refusal.Refusal.TheVariants.{Memory as NoMemory};
ghost use Rattle.inventory_answers.specs.declared.reply.Rows.TheVariants as rows;
ghost use Rattle.steps.specs.Calls.{Call};
ghost use Rattle.sessions.specs.Validating.{AsksValidity, Validates, Validating, unfit, validity};

use crate::asking::unasked;
use inventory_answers::{Answer, Query, Rows};
use kinds::{Name, Refusal};
use steps::Stepper;

/// How the activation would be refused, as the answer has it. An answer to another query has nothing of it, and stands for want of memory.
fn validity_of(answer: Answer) -> Result<Option<Refusal>, Refusal>
    ensures ok { IfOk result (λ refusal. answer.rows ≡ rows.Validated refusal) }
    ensures err { IfErr result (λ e. e ≡ NoMemory) }
{
    match answer.rows {
        Rows::Validated(refusal) => Ok(refusal),
        other => {
            drop(other);
            Err(Refusal::Memory)
        }
    }
}

/// Asks how a set's activation would be refused.
fn ask_validity<P: Stepper>(p: &mut P, domain: Name, set: Name) -> Result<Option<Refusal>, Refusal>
    ensures { Call P.did p.old p.new (λ events. AsksValidity domain set events result) }
{
    let query = Query::Validated { domain, set };
    let answer = p.ask(&query);
    drop(query);
    match answer {
        Ok(answer) => validity_of(answer),
        Err(refusal) => Err(unasked(refusal)),
    }
}

/// The refusal of a set that can't be activated. What isn't told of one stands for want of memory.
fn unfit(refusal: Refusal) -> Refusal
    ensures { result ≡ unfit refusal }
{
    match refusal.number() {
        10 | 13 => refusal,
        _ => Refusal::Memory,
    }
}

fn validity(answer: Result<Option<Refusal>, Refusal>) -> Result<(), Refusal>
    ensures { result ≡ validity answer }
{
    match answer {
        Ok(None) => Ok(()),
        Ok(Some(refusal)) => Err(unfit(refusal)),
        Err(refusal) => Err(refusal),
    }
}

fn ask_and_tell<P: Stepper>(p: &mut P, domain: Name, set: Name) -> Result<(), Refusal>
    ensures { Call P.did p.old p.new (λ events. Validates domain set events result) }
{
    validity(ask_validity(p, domain, set))
}

/// Tells whether a policy set may be activated, by one step; nothing is committed. `NotFound` where the domain or the set isn't there, `NoDefaultClass` where the set has no default class,
/// and `LogFault`, `RunFull` or `Memory`.
pub fn validate<P: Stepper>(p: &mut P, domain: Name, set: Name) -> Result<(), Refusal>
    ensures { Call P.did p.old p.new (λ events. Validating domain set events result) }
{
    ask_and_tell(p, domain, set)
}
