//! What takes the output of a run.

ghost use Rattle.std.specs.Prelude.{◌≡◌, ◌↔◌, true, false, [], ◌∷◌, ◌++◌, IsTrue, OnErr, OnOk, List as Items, map};
ghost use Rattle.stx_base.specs.Character.{is_cdata_text};
ghost use Rattle.stx_base.specs.declared.part.Part.TheVariants as parts;
ghost use Rattle.result_writer.specs.Target.{Target, is_closed};
ghost use Rattle.template_machine.specs.Ending.{Note, Said};
ghost use Rattle.template_machine.specs.Putting.{attribute_part};
ghost use Rattle.template_machine.specs.Sinks.{Takes, TakesInTurn, behind_all};

use result_writer::{ResultFault, WriteStop};
use stx_base::{Attr, Binding, List, Memory, Name, Spare, Text};

/// Takes the parts and the messages of a run, one after another. It judges each part, and takes one only where it has no fault
/// behind those before. After a refusal nothing has changed.
pub trait Sink {
    /// What the parts leave of the output.
    ghost output: { Self → Target };

    /// Whether a sink is as it becomes once it is told this, one after another.
    ghost told: { Self → Self → Items Said → Type 0 };

    /// An element's start, in the scope where the element comes from.
    fn start(
        &mut self,
        name: Name,
        scope: &List<Binding>,
        spare: &mut Spare,
    ) -> Result<(), WriteStop>
        ensures { Takes output told (parts.Start name scope.now) result self.old self.new };

    /// Whether a scope is that of the start before. Allocates nothing.
    fn is_last_scope(&self, scope: &List<Binding>) -> bool
        ensures { IsTrue result ↔ (scope.now ≡ (output self.now).last) };

    /// The same in the scope of the start before.
    fn start_again(&mut self, name: Name, spare: &mut Spare) -> Result<(), WriteStop>
        ensures { Takes output told (parts.Start name (output self.old).last) result self.old self.new };

    fn attribute(&mut self, name: Name, value: Text) -> Result<(), WriteStop>
        ensures { Takes output told (parts.Attribute name value) result self.old self.new };

    /// Attributes one after another, up to the first that has a fault. Those before it are taken.
    fn attributes(&mut self, attrs: List<Attr>) -> Result<(), WriteStop>
        ensures { TakesInTurn output told (map attribute_part attrs) result self.old self.new };

    fn end(&mut self, name: &Name, spare: &mut Spare) -> Result<(), WriteStop>
        ensures { Takes output told (parts.End name.now) result self.old self.new };

    fn chars(&mut self, text: &Text) -> Result<(), WriteStop>
        ensures { Takes output told (parts.Chars text.now) result self.old self.new };

    fn cdata(&mut self, text: &Text) -> Result<(), WriteStop>
        requires { is_cdata_text text.now ≡ true }
        ensures { Takes output told (parts.CData text.now) result self.old self.new };

    fn comment(&mut self, text: &Text) -> Result<(), WriteStop>
        ensures { Takes output told (parts.Comment text.now) result self.old self.new };

    fn instruction(&mut self, target: &Text, text: &Text) -> Result<(), WriteStop>
        ensures { Takes output told (parts.Pi target.now text.now) result self.old self.new };

    /// A message.
    fn note(&mut self, text: &Text) -> Result<(), Memory>
        ensures said { OnOk result (told self.old self.new (Note text.now ∷ [])) }
        ensures unsaid { OnErr result (told self.old self.new []) };

    /// The output ends. It is refused exactly where an element is open. Allocates nothing.
    fn finish(&mut self) -> Result<(), ResultFault>
        ensures closed { OnOk result (is_closed (output self.old).left.elements (output self.old).left.held ≡ true) }
        ensures unclosed { OnErr result (is_closed (output self.old).left.elements (output self.old).left.held ≡ false) }
        ensures unsaid { told self.old self.new [] };

    ghost nothing: { (s : Self) → told s s [] };

    ghost further: { (a b c : Self) (first second : Items Said) → told a b first → told b c second → told a c (first ++ second) };

    ghost leaves: { (a b : Self) (said : Items Said) → told a b said → output b ≡ behind_all (output a) said };
}
