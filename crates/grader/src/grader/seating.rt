ghost use Rattle.std.specs.Prelude.{List};
ghost use Rattle.logs.specs.Logs.{Plant};
ghost use Rattle.logs.specs.Situations.{checks};
ghost use Rattle.logs.specs.declared.call.Call.TheVariants.{Open, Close};
ghost use Rattle.logs.specs.Steps.{within};
ghost use Rattle.grader.specs.Checks.{Found};
ghost use Rattle.grader.specs.Graders.{Keeps, Does, Carries, held, reply};

use super::Grader;
use super::checks::{check_panel, check_person};
use kinds::Kind;
use logs::Refusal;
use sets::Set;
use tables::Seat;

impl<P> Grader<P> {
    // Seats the person at the panel, with no role active.
    pub fn open<K: Kind>(
        &mut self,
        register: &[K::Value],
        panel: u8,
        person: u16,
    ) -> Result<(), Refusal>
        ensures policy_and_table_stay { Keeps self.old self.new }
        ensures refused_by_its_first_check_that_holds_else_done { (p : Plant K.Value K.Test) → Does p self.old register.now (Open panel person) (reply result) self.new register.now }
        ensures carries_every_log_on { (p : Plant K.Value K.Test) → Carries p self.old register.now (Open panel person) (reply result) self.new register.now }
    {
        self.check_open::<K>(register, panel, person)?;
        let seat = Seat {
            person,
            active: Set::new(),
        };
        self.panels.put(panel, Some(seat));
        Ok(())
    }

    // The checks of an open, in rising order.
    fn check_open<K: Kind>(
        &self,
        register: &[K::Value],
        panel: u8,
        person: u16,
    ) -> Result<(), Refusal>
        ensures refused_by_the_first_check_that_holds { (p : Plant K.Value K.Test) → Found (checks (within p self.now.senior (held self.now register.now)) (Open panel person)) (λ _. Unit {0}) result }
    {
        check_panel(panel)?;
        if self.panels.seat(panel).is_some() {
            return Err(Refusal::PanelOpen);
        }
        check_person(person, register)
    }

    // Ends the seat at the panel, and all its roles.
    pub fn close<K: Kind>(&mut self, panel: u8) -> Result<(), Refusal>
        ensures policy_and_table_stay { Keeps self.old self.new }
        ensures refused_by_its_first_check_that_holds_else_done { (p : Plant K.Value K.Test) (vs : List K.Value) → Does p self.old vs (Close panel) (reply result) self.new vs }
        ensures carries_every_log_on { (p : Plant K.Value K.Test) (vs : List K.Value) → Carries p self.old vs (Close panel) (reply result) self.new vs }
    {
        self.seat_at(panel)?;
        self.panels.put(panel, None);
        Ok(())
    }
}
