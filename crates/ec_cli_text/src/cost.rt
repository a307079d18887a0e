//! The command `cost`: what each tick costs at the places of a plan.

ghost use Rattle.std.specs.Prelude.{◌≡◌, ◌+◌, ◌<◌, ◌≤◌, ◌++◌, length, string_bytes, IfOk, OnOk};
ghost use Rattle.ec_hyper.specs.Lcm.{lcm_of};
ghost use Rattle.ec_units.specs.Load.{loads_of, periods_of};
ghost use Rattle.ec_units.specs.Views.{units_view};
ghost use Rattle.ec_loads.specs.Cost.{plan_items, tick_cost};
ghost use Rattle.ec_loads.specs.Legal.{IsLegal};
ghost use Rattle.ec_loads.specs.Held.{items_of};
ghost use Rattle.ec_cli_text.specs.Lines.{tick_line, tick_lines};
ghost use Rattle.ec_cli_text.specs.Output.{IsCostText, IsCostsText, Answers};
ghost use Rattle.ec_cli_command.specs.declared.job.Job.TheVariants.{Cost};

use crate::answer::Answer;
use ec_cli_refusals::Refusal;
use ec_loads::{Loads, Plan};
use ec_units::Units;
use ec_wire::{fits, ns_of};
use std::alloc::{AllocError, Global};
use std::fmt::Write;

/// Adds the line of a tick.
fn push_tick(text: &mut String, tick: u32, bytes: u64) -> Result<(), AllocError>
    requires { bytes ≤ 1000000 }
    ensures { OnOk result (string_bytes text.new ≡ string_bytes text.old ++ tick_line tick bytes) }
{
    let ns = ns_of(bytes);
    write!(text, "tick {tick} bytes {bytes} ns {ns}\n")
}

/// Adds a line for each tick.
fn push_ticks(text: &mut String, loads: &Loads, ticks: u32) -> Result<(), AllocError>
    ensures { OnOk result (string_bytes text.new ≡ string_bytes text.old ++ tick_lines (tick_cost (items_of loads.now) loads.now.slots) ticks) }
{
    for t in 0..ticks {
        push_tick(text, t, loads.cost(t))?;
    }
    Ok(())
}

/// The text of the costs of a plan.
fn cost_text(alloc: Global, units: &Units, plan: &Plan) -> Result<String, AllocError>
    requires { length plan.now.places ≡ length units.now.units }
    ensures { IfOk result (λ text. IsCostText (plan_items (loads_of units.now.units) plan.now.places) units.now.slots
        (lcm_of (periods_of (loads_of units.now.units))) units.now.tick_ns (string_bytes text)) }
{
    let loads = Loads::at(alloc, units, plan)?;
    let ticks = units.hyper().ticks();
    let mut text = format!(in alloc; "hyperperiod {ticks}\n")?;
    push_ticks(&mut text, &loads, ticks)?;
    let (most, at) = loads.top();
    write!(text, "busiest {most} at {at}\n")?;
    let answer = if fits(most, units.tick_ns) {
        "yes"
    } else {
        "no"
    };
    write!(text, "fits {answer}\n")?;
    Ok(text)
}

/// What is answered for a legal plan of the units: the text of its costs, or that memory ran out.
pub fn plan_cost(alloc: Global, units: &Units, plan: &Plan) -> Result<Answer, Refusal>
    requires { IsLegal (loads_of units.now.units) units.now.slots plan.now.places }
    ensures { Answers Cost result (λ w. IsCostsText (units_view units.now) plan.now.places w.text × (w.code ≡ 0)) }
{
    let text = cost_text(alloc, units, plan)?;
    Ok(Answer { text, code: 0 })
}
