//! Open lists: heads, ends, and nodes that are skipped.

ghost use Rattle.std.specs.Prelude.{◌≡◌, ◌+◌, ◌-◌, ◌<◌, ◌≤◌, IfOk, IsSome, None, Some, Ok, true, false, length, reverse, slice_set, List as Items, ◌∷◌, ℕ, OnOk};
ghost use Rattle.stx_base.specs.declared.node.First.{First as Child};
ghost use Rattle.frame_stack.specs.declared.frame.Frame.{Frame as Waiting};
ghost use Rattle.frame_stack.specs.declared.frame.Frame.TheVariants.{Skip};
ghost use Rattle.node_stack.specs.Open.{leaf_of};
ghost use Rattle.node_stack.specs.Path.{Element, can_end, current, is_attribute};
ghost use Rattle.node_stack.specs.Stack.{path};
ghost use Rattle.xml_events.specs.Telling.{followed};
ghost use Rattle.xml_events.specs.Tree.{Element as Told_element, Leaf as Told_leaf};
ghost use Rattle.template_machine.specs.Behind.{DocumentIsLast, IsInList, MovesFrom, StepsFrom, head_taken, list_done, node_done};
ghost use Rattle.template_machine.specs.Bodies as bodies;
ghost use Rattle.template_machine.specs.Closing.{is_slot};
ghost use Rattle.template_machine.specs.Documents.{documents};
ghost use Rattle.template_machine.specs.Entering.{IsUncounted};
ghost use Rattle.template_machine.specs.Heard.{Hears, HearsAll, Listens, MayEnd, Skips, end_first, leaf_first, start_first};
ghost use Rattle.template_machine.specs.Onward.{StepsOn};
ghost use Rattle.template_machine.specs.Ordinary.{IsAlone};
ghost use Rattle.template_machine.specs.Standing.{standing_of};
ghost use Rattle.template_machine.specs.Steps.{fuel_ended};
ghost use Rattle.template_machine.specs.Still.{still};
ghost use Rattle.template_machine.specs.Trail.{leaf_node};
ghost use Rattle.template_machine.specs.Ways.{first_in};
ghost use Rattle.template_machine.specs.Moments.{Follows, GoesOrWaits, HasTold, HeadIsLooked, IsBuffer, ListIsOver, NodeIsOver, PutsAside, RegionIsOver, SkipEnds, SkipsOn, TakesHead};
ghost use Rattle.template_machine.specs.Well.{IsWell, StandOnRegion};
ghost use Rattle.template_machine.specs.Work.{AsksNone, Begins, Falls, Sheds, burden, work};

use crate::bodies::take_off;
use crate::program::Program;
use crate::run::{Doing, Run, Step};
use crate::sink::Sink;
use crate::source::{Ahead, Origin};
use crate::stop::Stop;
use event_buffers::Told;
use frame_stack::{Frame, Frames};
use node_stack::{Leaf, NodeView, Parked};
use sibling_regions::{ends, law};
use stx_base::{Attr, Binding, First, List, Name};
use xml_events::Event;

impl Run {
    /// The next event of the innermost source, which is wanted and counted.
    #[inline(always)]
    pub fn arrive(&mut self, program: &Program, event: Event) -> Result<(), Stop>
        requires { HasTold program.now event self.old }
        ensures stands { IfOk result (λ _. IsWell program.now self.new × (self.new.doing ≡ Doing.List)) }
        ensures works { (id : ℕ) → IsBuffer id self.old.source.origin → OnOk result (work program.now self.new < work program.now self.old) }
        ensures fuel { OnOk result (self.new.fuel ≤ fuel_ended program.now.limits.fuel self.old.fuel self.old.source.origin) }
        ensures documents { OnOk result (documents self.new ≡ documents self.old) }
        ensures hears { IsAlone program.now self.old → Hears program.now (followed event) result self.old self.new }
    {
        match skipped(&self.frames) {
            Some(depth) => self.skip(program, depth, event),
            None => self.take_event(program, event),
        }
    }

    #[inline(always)]
    fn take_event(&mut self, program: &Program, event: Event) -> Result<(), Stop>
        requires told { HasTold program.now event self.old }
        requires taken { bodies.skipped_in (reverse self.old.frames.frames) ≡ None }
        ensures stands { IfOk result (λ _. IsWell program.now self.new × (self.new.doing ≡ Doing.List)) }
        ensures works { (id : ℕ) → IsBuffer id self.old.source.origin → OnOk result (work program.now self.new < work program.now self.old) }
        ensures fuel { OnOk result (self.new.fuel ≤ fuel_ended program.now.limits.fuel self.old.fuel self.old.source.origin) }
        ensures documents { OnOk result (documents self.new ≡ documents self.old) }
        ensures hears { Listens program.now self.old → Hears program.now (followed event) result self.old self.new }
    {
        match event {
            Event::Start {
                offset: _offset,
                name,
                attrs,
                decls,
                first,
            } => self.open_node(program, name, attrs, decls, first),
            Event::Chars {
                offset: _offset,
                text,
            } => self.leaf(program, Leaf::Chars(text)),
            Event::CData {
                offset: _offset,
                text,
            } => self.leaf(program, Leaf::CData(text)),
            Event::Comment {
                offset: _offset,
                text,
            } => self.leaf(program, Leaf::Comment(text)),
            Event::Pi {
                offset: _offset,
                target,
                text,
            } => self.leaf(program, Leaf::Pi { target, text }),
            Event::End { offset: _offset } => {
                self.find_end(program);
                Ok(())
            }
            Event::DocumentEnd { offset: _offset } => {
                self.find_end(program);
                Ok(())
            }
        }
    }

    /// An element is the head of the innermost list.
    #[inline(always)]
    fn open_node(
        &mut self,
        program: &Program,
        name: Name,
        attrs: List<Attr>,
        decls: List<Binding>,
        first: First,
    ) -> Result<(), Stop>
        requires { TakesHead program.now (Element name attrs decls first) self.old }
        ensures stands { IfOk result (λ _. IsWell program.now self.new × (self.new.doing ≡ Doing.List)) }
        ensures works { (id : ℕ) → IsBuffer id self.old.source.origin → OnOk result (work program.now self.new < work program.now self.old) }
        ensures fuel { OnOk result (self.new.fuel ≤ fuel_ended program.now.limits.fuel self.old.fuel self.old.source.origin) }
        ensures documents { OnOk result (documents self.new ≡ documents self.old) }
        ensures hears { Listens program.now self.old → (offset : ℕ) → Hears program.now (start_first (record { offset = offset; name = name; attrs = attrs; decls = decls }) first) result self.old self.new }
    {
        self.begin(program)?;
        let change = self.source.open(name, attrs, decls, first)?;
        self.putting.see(change);
        Ok(())
    }

    /// A leaf is the head of the innermost list.
    #[inline(always)]
    fn leaf(&mut self, program: &Program, leaf: Leaf) -> Result<(), Stop>
        requires { TakesHead program.now (leaf_of leaf) self.old }
        ensures stands { IfOk result (λ _. IsWell program.now self.new × (self.new.doing ≡ Doing.List)) }
        ensures works { (id : ℕ) → IsBuffer id self.old.source.origin → OnOk result (work program.now self.new < work program.now self.old) }
        ensures fuel { OnOk result (self.new.fuel ≤ fuel_ended program.now.limits.fuel self.old.fuel self.old.source.origin) }
        ensures documents { OnOk result (documents self.new ≡ documents self.old) }
        ensures hears { Listens program.now self.old → (l : Told_leaf) → leaf_node l ≡ leaf_of leaf → Hears program.now (leaf_first l) result self.old self.new }
    {
        self.begin(program)?;
        self.source.leaf(leaf)
    }

    /// The innermost list has ended.
    #[inline(always)]
    fn find_end(&mut self, program: &Program)
        requires over { ListIsOver program.now self.old }
        requires list { self.old.doing ≡ Doing.List }
        ensures well { IsWell program.now self.new }
        ensures list { self.new.doing ≡ Doing.List }
        ensures works { (id : ℕ) → IsBuffer id self.old.source.origin → work program.now self.new < work program.now self.old }
        ensures fuel { self.new.fuel ≤ fuel_ended program.now.limits.fuel self.old.fuel self.old.source.origin }
        ensures documents { documents self.new ≡ documents self.old }
        ensures hears { MayEnd program.now self.old → (offset : ℕ) → HearsAll program.now (end_first offset) self.old self.new }
    {
        self.end_list(program);
        self.source.ahead = Ahead::Ended;
    }

    /// An event in a list that is skipped, in which so many elements are open.
    fn skip(&mut self, program: &Program, depth: u32, event: Event) -> Result<(), Stop>
        requires told { HasTold program.now event self.old }
        requires skipped { bodies.skipped_in (reverse self.old.frames.frames) ≡ Some depth }
        ensures stands { IfOk result (λ _. IsWell program.now self.new × (self.new.doing ≡ Doing.List)) }
        ensures works { (id : ℕ) → IsBuffer id self.old.source.origin → OnOk result (work program.now self.new < work program.now self.old) }
        ensures fuel { OnOk result (self.new.fuel ≤ fuel_ended program.now.limits.fuel self.old.fuel self.old.source.origin) }
        ensures documents { OnOk result (documents self.new ≡ documents self.old) }
        ensures hears { IsAlone program.now self.old → Hears program.now (followed event) result self.old self.new }
    {
        let skipped = self.pass_over(program, depth, &event);
        event.give_back(&mut self.putting.spare);
        skipped
    }

    fn pass_over(&mut self, program: &Program, depth: u32, event: &Event) -> Result<(), Stop>
        requires told { HasTold program.now event.now self.old }
        requires skipped { bodies.skipped_in (reverse self.old.frames.frames) ≡ Some depth }
        ensures stands { IfOk result (λ _. IsWell program.now self.new × (self.new.doing ≡ Doing.List)) }
        ensures works { (id : ℕ) → IsBuffer id self.old.source.origin → OnOk result (work program.now self.new < work program.now self.old) }
        ensures fuel { OnOk result (self.new.fuel ≤ fuel_ended program.now.limits.fuel self.old.fuel self.old.source.origin) }
        ensures documents { OnOk result (documents self.new ≡ documents self.old) }
        ensures hears { IsAlone program.now self.old → Hears program.now (followed event.now) result self.old self.new }
    {
        match event {
            Event::Start { .. } => self.skip_start(program, depth),
            Event::End { .. } => Ok(self.skip_end(program, depth)),
            Event::DocumentEnd { .. } => Ok(self.skip_end(program, depth)),
            Event::Chars { .. } => self.skip_leaf(program, depth),
            Event::CData { .. } => self.skip_leaf(program, depth),
            Event::Comment { .. } => self.skip_leaf(program, depth),
            Event::Pi { .. } => self.skip_leaf(program, depth),
        }
    }

    fn skip_start(&mut self, program: &Program, depth: u32) -> Result<(), Stop>
        requires { SkipsOn program.now (depth + 1) self.old }
        ensures stands { IfOk result (λ _. IsWell program.now self.new × (self.new.doing ≡ Doing.List)) }
        ensures works { (id : ℕ) → IsBuffer id self.old.source.origin → OnOk result (work program.now self.new < work program.now self.old) }
        ensures fuel { OnOk result (self.new.fuel ≤ fuel_ended program.now.limits.fuel self.old.fuel self.old.source.origin) }
        ensures documents { OnOk result (documents self.new ≡ documents self.old) }
        ensures hears { Skips program.now depth self.old → (e : Told_element) (first : Child) → Hears program.now (start_first e first) result self.old self.new }
    {
        self.begin(program)?;
        self.skip_to(program, depth + 1);
        Ok(())
    }

    fn skip_leaf(&mut self, program: &Program, depth: u32) -> Result<(), Stop>
        requires { SkipsOn program.now depth self.old }
        ensures stands { IfOk result (λ _. IsWell program.now self.new × (self.new.doing ≡ Doing.List)) }
        ensures works { (id : ℕ) → IsBuffer id self.old.source.origin → OnOk result (work program.now self.new < work program.now self.old) }
        ensures fuel { OnOk result (self.new.fuel ≤ fuel_ended program.now.limits.fuel self.old.fuel self.old.source.origin) }
        ensures documents { OnOk result (documents self.new ≡ documents self.old) }
        ensures hears { Skips program.now depth self.old → (l : Told_leaf) → Hears program.now (leaf_first l) result self.old self.new }
    {
        self.begin(program)?;
        self.skip_to(program, depth);
        Ok(())
    }

    fn skip_end(&mut self, program: &Program, depth: u32)
        requires { SkipEnds program.now depth self.old }
        ensures stands { IsWell program.now self.new × (self.new.doing ≡ Doing.List) }
        ensures works { (id : ℕ) → IsBuffer id self.old.source.origin → work program.now self.new < work program.now self.old }
        ensures fuel { self.new.fuel ≤ fuel_ended program.now.limits.fuel self.old.fuel self.old.source.origin }
        ensures documents { documents self.new ≡ documents self.old }
        ensures hears { Skips program.now depth self.old → (offset : ℕ) → HearsAll program.now (end_first offset) self.old self.new }
    {
        match depth.checked_sub(1) {
            Some(less) => {
                self.end_list(program);
                self.skip_to(program, less);
            }
            None => self.find_end(program),
        }
    }

    /// So many elements are open in the list that is skipped.
    fn skip_to(&mut self, program: &Program, depth: u32)
        requires { SkipsOn program.now depth self.old }
        ensures stands { IsWell program.now self.new × (self.new.doing ≡ Doing.List) }
        ensures works { (d : ℕ) → bodies.skipped_in (reverse self.old.frames.frames) ≡ Some d → (self.new.fuel ≡ self.old.fuel) × (burden self.new + d ≡ burden self.old + depth) }
        ensures fuel { self.new.fuel ≡ self.old.fuel }
        ensures documents { documents self.new ≡ documents self.old }
        ensures rest { self.new ≡ record self.old { frames = self.new.frames } }
        ensures depth { (d : ℕ) (others : Items Waiting) → reverse self.old.frames.frames ≡ Skip d ∷ others → reverse self.new.frames.frames ≡ Skip depth ∷ others }
    {
        let top = self.frames.count() - 1;
        self.frames.set_depth(top, depth);
    }

    /// The innermost open list goes on.
    #[inline(always)]
    pub fn look<S: Sink>(&mut self, program: &Program, out: &mut S) -> Result<Step, Stop>
        requires well { IsWell program.now self.old }
        requires list { self.old.doing ≡ Doing.List }
        ensures stands { IfOk result (λ step. Follows program.now step self.new) }
        ensures works { IfOk result (λ step. Falls program.now self.old step self.new) }
        ensures steps { IsAlone program.now self.old → StepsOn S.output S.told program.now result self.old self.new out.old out.new }
    {
        match next_attribute_of(&self.frames) {
            Some(next) => self.next_attribute(program, next, out),
            None => self.look_ahead(program, out),
        }
    }

    /// A list whose nodes come as events goes on.
    #[inline(always)]
    fn look_ahead<S: Sink>(&mut self, program: &Program, out: &mut S) -> Result<Step, Stop>
        requires well { IsWell program.now self.old }
        requires list { self.old.doing ≡ Doing.List }
        requires events { bodies.takes_events (reverse self.old.frames.frames) ≡ true }
        ensures stands { IfOk result (λ step. Follows program.now step self.new) }
        ensures works { IfOk result (λ step. Falls program.now self.old step self.new) }
        ensures steps { IsAlone program.now self.old → StepsOn S.output S.told program.now result self.old self.new out.old out.new }
    {
        match self.source.ahead {
            Ahead::Nothing => self.want(program),
            Ahead::Here => {
                self.source.ahead = Ahead::Nothing;
                self.head(program, out)
            }
            Ahead::Held => {
                let change = self.source.resume_held()?;
                self.putting.see(change);
                Ok(Step::More)
            }
            Ahead::Ended => {
                self.source.ahead = Ahead::Nothing;
                self.list_over(program, out)
            }
        }
    }

    /// The innermost list goes on: where nothing is known of it, a document is asked for its next event.
    #[inline(always)]
    pub fn list_goes_on(&mut self) -> Step
        ensures run { self.new ≡ record self.old { doing = Doing.List } }
        ensures step { GoesOrWaits result self.old }
    {
        self.doing = Doing::List;
        match self.source.ahead {
            Ahead::Nothing => self.asked_for(),
            Ahead::Here => Step::More,
            Ahead::Held => Step::More,
            Ahead::Ended => Step::More,
        }
    }

    fn asked_for(&self) -> Step
        requires { self.now.source.ahead ≡ Ahead.Nothing }
        ensures { GoesOrWaits result self.now }
    {
        match next_attribute_of(&self.frames) {
            Some(_next) => Step::More,
            None => match self.source.origin {
                Origin::Buffer { .. } => Step::More,
                Origin::Main => Step::Wait,
                Origin::Document { .. } => Step::Wait,
            },
        }
    }

    /// Nothing is known of the innermost list: a buffer tells its next event, and a document is asked for it.
    #[inline(always)]
    fn want(&mut self, program: &Program) -> Result<Step, Stop>
        requires well { IsWell program.now self.old }
        requires list { self.old.doing ≡ Doing.List }
        requires events { bodies.takes_events (reverse self.old.frames.frames) ≡ true }
        requires ahead { self.old.source.ahead ≡ Ahead.Nothing }
        ensures stands { IfOk result (λ step. Follows program.now step self.new) }
        ensures works { IfOk result (λ step. Falls program.now self.old step self.new) }
        ensures moves { IsAlone program.now self.old → MovesFrom program.now (λ given left f. still given program.now self.old left f) result self.new }
    {
        match self.source.origin {
            Origin::Main => Ok(Step::Wait),
            Origin::Document { .. } => Ok(Step::Wait),
            Origin::Buffer { id, .. } => self.tell(program, id),
        }
    }

    /// The innermost source, a buffer, tells its next event.
    fn tell(&mut self, program: &Program, id: u32) -> Result<Step, Stop>
        requires well { IsWell program.now self.old }
        requires list { self.old.doing ≡ Doing.List }
        requires events { bodies.takes_events (reverse self.old.frames.frames) ≡ true }
        requires ahead { self.old.source.ahead ≡ Ahead.Nothing }
        requires buffer { IsBuffer id self.old.source.origin }
        ensures stands { IfOk result (λ step. Follows program.now step self.new) }
        ensures works { IfOk result (λ step. Falls program.now self.old step self.new) }
    {
        match self.putting.buffers.event(id, self.source.next)? {
            Some(Told { event, next }) => {
                self.source.next = next;
                self.source.count(&event);
                self.arrive(program, event)?;
                Ok(Step::More)
            }
            None => {
                let end = Event::DocumentEnd { offset: 0 };
                self.source.count(&end);
                self.arrive(program, end)?;
                Ok(Step::More)
            }
        }
    }

    /// The current node is the head of the innermost list: it is taken, unless it ends a region.
    #[inline(always)]
    fn head<S: Sink>(&mut self, program: &Program, out: &mut S) -> Result<Step, Stop>
        requires { HeadIsLooked program.now self.old }
        ensures stands { IfOk result (λ step. Follows program.now step self.new) }
        ensures asks { IfOk result AsksNone }
        ensures works { OnOk result (Begins 5 self.old self.new) }
        ensures takes { IsAlone program.now self.old → IsUncounted self.old → StepsFrom S.output S.told program.now (λ given left f. head_taken given program.now self.old left f) result self.new out.old out.new }
    {
        let over = self.head_ends_region(program)?;
        if over {
            let change = self.source.hold();
            self.putting.see(change);
            return self.end_region(program);
        }
        let asker = self.asker(program);
        self.take(program, asker, out)
    }

    /// Whether the innermost list is a region that the current node ends.
    #[inline(always)]
    fn head_ends_region(&self, program: &Program) -> Result<bool, Stop>
        requires { HeadIsLooked program.now self.now }
        ensures region { IfOk result (λ over. over ≡ true → StandOnRegion (reverse self.now.frames.frames)) }
        ensures apart { IsAlone program.now self.now → result ≡ Ok false }
    {
        match self.frames.top() {
            Some(Frame::Region { .. }) => self.ends_region(program),
            _ => Ok(false),
        }
    }

    /// Whether the current node ends a region of its list.
    fn ends_region(&self, program: &Program) -> Result<bool, Stop>
        requires { HeadIsLooked program.now self.now }
    {
        law::standing();
        let vars = self.seen(program);
        let ended = ends(
            self.alloc,
            &self.frames,
            &program.sheet,
            &program.code,
            &self.source.stack,
            &vars,
            &program.limits,
        )?;
        Ok(ended.is_some())
    }

    /// The innermost region is over: the node of its body is the current one again, and its body goes on.
    fn end_region(&mut self, program: &Program) -> Result<Step, Stop>
        requires { RegionIsOver program.now self.old }
        ensures stands { IfOk result (λ step. Follows program.now step self.new) }
        ensures asks { IfOk result AsksNone }
        ensures works { OnOk result (Sheds 2 self.old self.new) }
    {
        take_off(&mut self.frames);
        let node = self.aside.pop().unwrap().unwrap();
        let change = self.source.resume(node)?;
        self.putting.see(change);
        self.end_process(program);
        Ok(Step::More)
    }

    /// The innermost open list is over.
    #[inline(always)]
    fn list_over<S: Sink>(&mut self, program: &Program, out: &mut S) -> Result<Step, Stop>
        requires { ListIsOver program.now self.old }
        ensures stands { IfOk result (λ step. Follows program.now step self.new) }
        ensures asks { IfOk result AsksNone }
        ensures works { OnOk result (Begins 0 self.old self.new) }
        ensures steps { IsAlone program.now self.old → ((depth : ℕ) → bodies.skipped_in (reverse self.old.frames.frames) ≡ Some depth → depth ≡ 0) → StepsFrom S.output S.told program.now (λ given left f. list_done given program.now self.old left f) result self.new out.old out.new }
    {
        match self.frames.top() {
            Some(Frame::Region { .. }) => {
                self.source.ahead = Ahead::Ended;
                self.end_region(program)
            }
            Some(Frame::Pass { base, level, .. }) => {
                let (base, level) = (*base, *level);
                self.end_pass(program, base, level, out)
            }
            Some(Frame::Skip { .. }) => self.end_skip(program),
            Some(Frame::Source { .. }) => {
                self.leave_source(program);
                self.end_process(program);
                Ok(Step::More)
            }
            Some(Frame::Body { .. }) => self.end_children(program),
            Some(Frame::Call { .. }) => self.end_children(program),
            Some(Frame::Loop { .. }) => self.end_children(program),
            Some(Frame::Attributes { .. }) => unreachable!(),
            None => unreachable!(),
        }
    }

    /// The children of a body's node are over.
    fn end_children(&mut self, program: &Program) -> Result<Step, Stop>
        requires over { ListIsOver program.now self.old }
        requires body { IsSome (bodies.level_in (reverse self.old.frames.frames)) }
        ensures stands { IfOk result (λ step. Follows program.now step self.new) }
        ensures asks { IfOk result AsksNone }
        ensures works { OnOk result (Begins 0 self.old self.new) }
        ensures moves { IsAlone program.now self.old → MovesFrom program.now (λ given left f. list_done given program.now self.old left f) result self.new }
    {
        self.end_process(program);
        Ok(Step::More)
    }

    /// The children of a node that were skipped are over.
    fn end_skip(&mut self, program: &Program) -> Result<Step, Stop>
        requires over { ListIsOver program.now self.old }
        requires skipped { IsSome (bodies.skipped_in (reverse self.old.frames.frames)) }
        ensures stands { IfOk result (λ step. Follows program.now step self.new) }
        ensures asks { IfOk result AsksNone }
        ensures works { OnOk result (Begins 0 self.old self.new) }
        ensures moves { IsAlone program.now self.old → bodies.skipped_in (reverse self.old.frames.frames) ≡ Some 0 → MovesFrom program.now (λ given left f. list_done given program.now self.old left f) result self.new }
    {
        take_off(&mut self.frames);
        if self.has_slot() {
            self.put_aside(program);
            return Ok(Step::More);
        }
        self.leave_node(program)
    }

    /// Whether the current node is that of a body which asked for siblings. Allocates nothing.
    fn has_slot(&self) -> bool
        ensures { result ≡ is_slot (first_in (standing_of self.now).aside) }
    {
        match self.aside.last() {
            Some(Some(_)) => false,
            Some(None) => true,
            None => false,
        }
    }

    /// The current node, whose body asked for siblings, waits until their region is over.
    pub fn put_aside(&mut self, program: &Program)
        requires { PutsAside program.now self.old }
        ensures stands { IsWell program.now self.new }
        ensures works { Begins 2 self.old self.new }
    {
        let (node, change) = self.source.park();
        self.putting.see(change);
        fill(&mut self.aside, node);
        self.doing = Doing::List;
    }

    /// All is done with the current node: the list goes on behind it.
    pub fn leave_node(&mut self, program: &Program) -> Result<Step, Stop>
        requires { NodeIsOver program.now self.old }
        ensures stands { IfOk result (λ step. Follows program.now step self.new) }
        ensures asks { IfOk result AsksNone }
        ensures works { OnOk result (Begins 2 self.old self.new) }
        ensures moves { IsAlone program.now self.old → DocumentIsLast self.old → IsInList self.old → MovesFrom program.now (λ given left f. node_done given program.now self.old left f) result self.new }
    {
        match self.source.stack.current() {
            NodeView::Attribute(_) => Ok(self.leave_attribute(program)),
            NodeView::Document => Ok(Step::Over),
            NodeView::Element { .. } => Ok(self.close_node(program)),
            NodeView::Chars(_) => Ok(self.close_node(program)),
            NodeView::CData(_) => Ok(self.close_node(program)),
            NodeView::Comment(_) => Ok(self.close_node(program)),
            NodeView::Pi { .. } => Ok(self.close_node(program)),
        }
    }

    /// All is done with the current attribute.
    fn leave_attribute(&mut self, program: &Program) -> Step
        requires over { NodeIsOver program.now self.old }
        requires attribute { is_attribute (current (path self.old.source.stack)) ≡ true }
        ensures stands { Follows program.now result self.new }
        ensures asks { AsksNone result }
        ensures works { Begins 2 self.old self.new }
        ensures moves { IsAlone program.now self.old → MovesFrom program.now (λ given left f. node_done given program.now self.old left f) (Ok result) self.new }
    {
        self.source.stack.leave_attribute();
        self.list_goes_on()
    }

    /// All is done with the current node, which can end.
    fn close_node(&mut self, program: &Program) -> Step
        requires over { NodeIsOver program.now self.old }
        requires end { can_end (current (path self.old.source.stack)) ≡ true }
        ensures stands { Follows program.now result self.new }
        ensures asks { AsksNone result }
        ensures works { Begins 2 self.old self.new }
        ensures moves { IsAlone program.now self.old → IsInList self.old → MovesFrom program.now (λ given left f. node_done given program.now self.old left f) (Ok result) self.new }
    {
        let change = self.source.close(&mut self.putting.spare);
        self.putting.see(change);
        self.list_goes_on()
    }

    /// The next attribute of the current element, if there is one.
    #[inline(never)]
    fn next_attribute<S: Sink>(
        &mut self,
        program: &Program,
        next: usize,
        out: &mut S,
    ) -> Result<Step, Stop>
        requires well { IsWell program.now self.old }
        requires list { self.old.doing ≡ Doing.List }
        requires next { bodies.next_in (reverse self.old.frames.frames) ≡ Some next }
        ensures stands { IfOk result (λ step. Follows program.now step self.new) }
        ensures works { IfOk result (λ step. Falls program.now self.old step self.new) }
        ensures steps { IsAlone program.now self.old → StepsOn S.output S.told program.now result self.old self.new out.old out.new }
    {
        let top = self.frames.count() - 1;
        if next < self.source.attributes() {
            self.frames.set_next(top, next + 1);
            self.source.stack.enter_attribute(next)?;
            let asker = self.asker(program);
            return self.take(program, asker, out);
        }
        take_off(&mut self.frames);
        self.end_process(program);
        Ok(Step::More)
    }
}

/// The node of the innermost region waits. Allocates nothing.
fn fill(aside: &mut Vec<Option<Parked>>, node: Parked)
    requires { 0 < length aside.old.items }
    ensures { aside.new.items ≡ slice_set aside.old.items (length aside.old.items - 1) (Some node) }
{
    let top = aside.len() - 1;
    aside[top] = Some(node);
}

/// How many elements are open in the innermost list, where it is skipped. Allocates nothing.
fn skipped(frames: &Frames) -> Option<u32>
    ensures { result ≡ bodies.skipped_in (reverse frames.now.frames) }
{
    match frames.top() {
        Some(frame) => depth_of(frame),
        None => None,
    }
}

fn depth_of(frame: &Frame) -> Option<u32>
    ensures { result ≡ bodies.depth_of frame.now }
{
    match frame {
        Frame::Skip { depth } => Some(*depth),
        _ => None,
    }
}

/// The number of the next attribute, where the innermost list is of attributes. Allocates nothing.
fn next_attribute_of(frames: &Frames) -> Option<usize>
    ensures { result ≡ bodies.next_in (reverse frames.now.frames) }
{
    match frames.top() {
        Some(frame) => next_of(frame),
        None => None,
    }
}

fn next_of(frame: &Frame) -> Option<usize>
    ensures { result ≡ bodies.next_of frame.now }
{
    match frame {
        Frame::Attributes { next, .. } => Some(*next),
        _ => None,
    }
}
