//! The jobs that only identify the chip, and the identification that precedes a further call to the engine.
ghost use Rattle.std.specs.Prelude.{IfErr, IfOk, Ok, OnOk};
ghost use Rattle.nor_jobs.specs.Finding.{FailsToFind, FailsToName, HasIdentified, HasLookedUp};
ghost use Rattle.nor_jobs.specs.Finding.{IsNamedFirst, ReportsFound, ReportsSize};

use nor_console::{Answer, Fault, Outcome, or_fault};
use nor_model::Bus;
use nor_probe::{ChipName, Found, probe};
use nor_session::Refusal;

/// Returns the identified chip as an answer, or an error of `identify_chip`.
pub fn answer_probe<B: Bus>(bus: &mut B, named: Option<ChipName>) -> Outcome
    ensures { HasLookedUp ReportsFound named (B.state bus.old) (B.state bus.new) result }
{
    let found = identify_chip(bus, named)?;
    Ok(Answer::Found(found))
}

/// Returns the chip's size in bytes, or an error of `identify_chip`.
pub fn report_size<B: Bus>(bus: &mut B, named: Option<ChipName>) -> Outcome
    ensures { HasLookedUp ReportsSize named (B.state bus.old) (B.state bus.new) result }
{
    let found = identify_chip(bus, named)?;
    Ok(Answer::Size(found.size))
}

/// Identifies the chip. Returns error 1 if there is no chip, error 2 if it is unknown, error 3 if `named` is given and
/// isn't its name, error 12 if the bus stopped, or error 13 if the chip stayed busy (never on a well-behaved bus).
pub fn identify_chip<B: Bus>(bus: &mut B, named: Option<ChipName>) -> Result<Found, Refusal>
    ensures { HasIdentified named (B.state bus.old) (B.state bus.new) result }
{
    Ok(probe(bus, named)?)
}

pub fn identify_or_fault<'a, B: Bus>(
    bus: &mut B,
    named: Option<ChipName>,
) -> Result<Found, Fault<'a>>
    ensures ok { IfOk result (λ found. HasIdentified named (B.state bus.old) (B.state bus.new) (Ok found)) }
    ensures err { IfErr result (FailsToFind named (B.state bus.old) (B.state bus.new)) }
{
    or_fault(identify_chip(bus, named))
}

/// Checks that the chip has the name `named`, if it is given. Returns the errors of `identify_chip`.
pub fn check_name<B: Bus>(bus: &mut B, named: Option<ChipName>) -> Result<(), Refusal>
    ensures ok { OnOk result (IsNamedFirst named (B.state bus.old) (B.state bus.new)) }
    ensures err { IfErr result (FailsToName named (B.state bus.old) (B.state bus.new)) }
{
    if named.is_some() {
        identify_chip(bus, named)?;
    }
    Ok(())
}
