//! Laws of the definitions.

ghost use Rattle.std.specs.Prelude.{List};
ghost use Rattle.mh_core.specs.declared.event.Event.{Event};
ghost use Rattle.mh_json.specs.declared.json.step.Step.{Step};
ghost use Rattle.mh_text.specs.Scripts.{IsScriptHeadline};
ghost use Rattle.mh_text.specs.Steps.{Run, Told};

use mh_core::Machine;

/// Proves the headline for a script: the lines that `run_bytes` writes are those of such a run.
pub fn every_script_is_right(machine: &Machine)
    ensures headline { (steps : List Step) → (replies : List Told) → (h : List Event)
        → Run machine.now.setting machine.now.history steps replies h
        → IsScriptHeadline machine.now.setting machine.now.history steps replies h }
{
    mh_core::every_run_is_right(machine);
}
