//! A law of the monitor. A law is a function without parameters that does nothing: its contract is what is proved.

ghost use Rattle.ucon_model.specs.Plain.{PlainPolicy};
ghost use Rattle.ucon_model.specs.History.{History, StandsFor as ModelStandsFor};
ghost use Rattle.ucon_plain.specs.declared.monitor.PlainMonitor.{PlainMonitor};
ghost use Rattle.ucon_plain.specs.Monitor.{IsReady};
ghost use Rattle.ucon_engine.specs.Engine.{StandsFor};
ghost use Rattle.ucon_state.specs.Shown.{shown};
ghost use Rattle.ucon_state.specs.Tables.{readings_in};

use ucon_state::tables_keep_what_is_followed;

/// A monitor that stands for a history has its policy, and what its state gives to read is what the history's trace gives.
pub fn monitors_stand_for_histories()
    ensures { (m : PlainMonitor) (P : PlainPolicy) (H : History) → StandsFor IsReady m P H
        → ModelStandsFor (shown m.state).policy (readings_in (shown m.state).policy (shown m.state).tables) P H }
{
    tables_keep_what_is_followed();
}
