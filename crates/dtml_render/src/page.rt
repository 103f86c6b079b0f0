ghost use Rattle.std.specs.Prelude.{◌≡◌, ◌≤◌, ◌<◌, ◌∷◌, ◌⊎◌, ℕ, List, [], Option, length, map, IfErr, IfOk, OnOk, Ok};
ghost use Rattle.evaluator.specs.declared.reply.Shown.{Shown};
ghost use Rattle.zbase.specs.Query.{Told};
ghost use Rattle.zobject.specs.declared.object.Object.{Object as ObjectValue};
ghost use Rattle.zknown.specs.Seen.{Seen, objects};
ghost use Rattle.acquisition.specs.Acquiring.{first};
ghost use Rattle.namespace.specs.Looks.{looked};
ghost use Rattle.namespace.specs.Names.{Scope, Space};
ghost use Rattle.namespace.specs.Told.{Begins, Shows};
ghost use Rattle.dtml_values.specs.Values.{Left};
ghost use Rattle.dtml_values.specs.Told.{told, left_of};
ghost use Rattle.dtml_values.specs.declared.refusal.RenderRefusal.TheVariants as refusals;
ghost use Rattle.dtml_render.specs.Frames as view;
ghost use Rattle.dtml_render.specs.Frames.{AreNested, IsInside, IsStanding, Leads, Opened, SourceBegun, Stands, Steps, Turned};
ghost use Rattle.dtml_render.specs.Frames.{above, children_of, comes_to, frames_view, place_of};
ghost use Rattle.dtml_render.specs.Rendering.{source_of, source_text};
ghost use Rattle.dtml_render.specs.Resuming as resuming;
ghost use Rattle.dtml_render.specs.Spots.{waiting_of};

use crate::asking::{cut, lent_under};
use crate::frames::{
    Ask, Frame, Reaching, Rest, Turns, Value, push_block, push_frame, push_opening,
};
use crate::openings::{answer, node_opening};
use crate::reaching::{ids_of, reach_more};
use crate::showing::put_text;
use crate::sources::{begun, go_into};
use crate::spots::{Source, Spot, Tag, node_in, share};
use crate::templates::Templates;
use crate::turns::{may_turn, push_turn};
use crate::worths::{Found, Worth, worth_of};
use acquisition::Wrapped;
use dtml_values::{Budget, RenderRefusal};
use namespace::{Single, Singles, Stack, Val};
use std::alloc::Global;
use std::mem;
use std::rc::Rc;
use zbase::{Memory, Text};
use zobject::{Child, Object};

/// A page on its way: what is still to come of it, what it may still spend, and its text so far.
#[derive(Drop)]
pub struct Page<'t> {
    frames: Vec<Frame<'t>>,
    budget: Budget,
    out: Text,
}

impl<'t> Page<'t> {
    /// A page that begins.
    #[tactic(auto, unfolding(crate::specs::Frames::frames_view))]
    pub fn new(
        alloc: Global,
        source: Source<'t>,
        stack: &Stack<'_>,
        budget: Budget,
    ) -> Result<Page<'t>, Memory>
        ensures { IfOk result (λ page. place_of page stack.now
            ≡ view.place (resuming.Rest (length stack.now.scope.layers) (view.source_view source.entry) ∷ []) budget [] stack.now) }
    {
        let spot = Spot::whole(alloc, source)?;
        let mut frames = Vec::new(alloc);
        push_block(&mut frames, spot, stack)?;
        let out = Text::new(alloc);
        Ok(Page {
            frames,
            budget,
            out,
        })
    }

    /// What the page may still spend. Takes no memory.
    pub fn budget(&self) -> Budget
        ensures { result ≡ self.now.budget }
    {
        self.budget
    }

    // Where an object is wanted that isn't known, the page stays as it was, but for want of memory. Behind any other refusal
    // what was spent stays spent.
    fn stopped(&mut self, frame: Frame<'t>, refusal: RenderRefusal, left: Budget) -> RenderRefusal
        requires tags { left.tags ≤ self.old.budget.tags }
        requires output { left.output ≤ self.old.budget.output }
        ensures kept { (o : ℕ) (space : Space) → result ≡ refusals.Need o
            → place_of self.new space ≡ above (view.frame_view frame.entry) (place_of self.old space) }
        ensures told { (result ≡ refusal) ⊎ (result ≡ refusals.Memory) }
        ensures tags { self.new.budget.tags ≤ self.old.budget.tags }
        ensures output { self.new.budget.output ≤ self.old.budget.output }
    {
        if let RenderRefusal::Need(oid) = refusal {
            return match push_frame(&mut self.frames, frame) {
                Ok(()) => RenderRefusal::Need(oid),
                Err(_) => RenderRefusal::Memory,
            };
        }
        self.budget = left;
        refusal
    }

    // A node more, or the block is left behind.
    fn rest_step(
        &mut self,
        alloc: Global,
        rest: Rest<'t>,
        stack: &mut Stack<'_>,
    ) -> Result<(), RenderRefusal>
        requires nested { IsStanding (above (view.rest_view rest) (place_of self.old stack.old)) }
        requires deep { resuming.depth_of (view.rest_view rest) ≡ length stack.old.scope.layers }
        ensures steps { Steps stack.old (above (view.rest_view rest.entry) (place_of self.old stack.old)) (place_of self.new stack.new) result }
        ensures known { stack.new.known ≡ stack.old.known }
    {
        let Some(node) = node_in(rest.spot.as_ref().nodes(), rest.next) else {
            return Ok(());
        };
        let opening = node_opening(node, &mut self.budget, &mut self.out)?;
        let tag = Tag {
            spot: share(&rest.spot)?,
            node: rest.next,
            part: 0,
        };
        let further = Rest {
            depth: rest.depth,
            spot: rest.spot,
            next: rest.next + 1,
        };
        push_frame(&mut self.frames, Frame::Rest(further))?;
        push_opening(alloc, &mut self.frames, tag, opening, stack)?;
        Ok(())
    }

    // An item's turn, or the loop is left behind.
    fn turns_step(
        &mut self,
        alloc: Global,
        turns: Turns<'t>,
        stack: &mut Stack<'_>,
    ) -> Result<(), RenderRefusal>
        requires nested { IsStanding (above (view.turns_view turns) (place_of self.old stack.old)) }
        requires deep { resuming.depth_of (view.turns_view turns) ≡ length stack.old.scope.layers }
        ensures steps { Steps stack.old (above (view.turns_view turns.entry) (place_of self.old stack.old)) (place_of self.new stack.new) result }
        ensures known { stack.new.known ≡ stack.old.known }
    {
        let Some((item, _)) = turns.items.as_slice().split_last() else {
            return Ok(());
        };
        let mut left = self.budget;
        match may_turn(turns.skip, item, stack, &mut left) {
            Ok(may) => {
                self.budget = left;
                Ok(self.turned(alloc, turns, may, stack)?)
            }
            Err(refusal) => Err(self.stopped(Frame::Turns(turns), refusal, left)),
        }
    }

    // The next item's block stands above the others' turns, where it has its turn.
    fn turned(
        &mut self,
        alloc: Global,
        mut turns: Turns<'t>,
        may: bool,
        stack: &mut Stack<'_>,
    ) -> Result<(), Memory>
        requires some { 0 < length turns.items.items }
        ensures ok { OnOk result (Turned (view.turns_view turns.entry) may (place_of self.old stack.old) (place_of self.new stack.new)) }
        ensures budget { self.new.budget ≡ self.old.budget }
        ensures out { self.new.out ≡ self.old.out }
        ensures known { stack.new.known ≡ stack.old.known }
        ensures shown { stack.new.shown ≡ stack.old.shown }
        ensures inside { (base : Scope) → IsInside base stack.old.scope → IsInside base stack.new.scope }
    {
        let Some(item) = turns.items.pop() else {
            return Ok(());
        };
        let before = turns.before;
        // Each turn costs a tag, so there are fewer.
        let Some(after) = before.checked_add(1) else {
            return Err(Memory);
        };
        turns.before = after;
        let many = turns.many;
        let spot = share(&turns.spot)?;
        push_frame(&mut self.frames, Frame::Turns(turns))?;
        if may {
            push_turn(alloc, many, before, &item, stack)?;
            push_block(&mut self.frames, spot, stack)?;
        }
        Ok(())
    }

    // An argument has its value, or goes on with an object's source or the children of a folder. A text that the object
    // lends isn't copied.
    fn ask_step(
        &mut self,
        templates: &mut Templates,
        ask: Ask<'t>,
        stack: &mut Stack<'_>,
    ) -> Result<(), RenderRefusal>
        requires nested { IsStanding (above (view.ask_view ask) (place_of self.old stack.old)) }
        requires deep { resuming.depth_of (view.ask_view ask) ≡ length stack.old.scope.layers }
        ensures steps { Steps stack.old (above (view.ask_view ask.entry) (place_of self.old stack.old)) (place_of self.new stack.new) result }
        ensures known { stack.new.known ≡ stack.old.known }
    {
        if let Some((at, tag, text)) = lent_under(&ask.tag, stack) {
            let alloc = templates.alloc();
            return put_text(alloc, at, tag, text, &mut self.budget, &mut self.out);
        }
        self.argument_step(templates, ask, stack)
    }

    fn argument_step(
        &mut self,
        templates: &mut Templates,
        ask: Ask<'t>,
        stack: &mut Stack<'_>,
    ) -> Result<(), RenderRefusal>
        requires nested { IsStanding (above (view.ask_view ask) (place_of self.old stack.old)) }
        requires deep { resuming.depth_of (view.ask_view ask) ≡ length stack.old.scope.layers }
        ensures steps { Steps stack.old (above (view.ask_view ask.entry) (place_of self.old stack.old)) (place_of self.new stack.new) result }
        ensures known { stack.new.known ≡ stack.old.known }
    {
        let alloc = templates.alloc();
        let Some((at, arg)) = ask.tag.argument() else {
            return Ok(());
        };
        let mut left = self.budget;
        let worth = match worth_of(alloc, at, arg, stack, &mut left) {
            Ok(worth) => worth,
            Err(refusal) => return Err(self.stopped(Frame::Ask(ask), refusal, left)),
        };
        self.budget = left;
        match worth {
            Worth::Found(found) => self.answered(alloc, ask.tag, found, stack),
            Worth::Children(whole, children) => {
                Ok(self.children_step(alloc, ask, whole, children)?)
            }
            Worth::Source(object, whole) => self.source_step(templates, ask, &object, whole, stack),
        }
    }

    // The children of a folder are still to be reached, and then the value of the argument.
    fn children_step(
        &mut self,
        alloc: Global,
        ask: Ask<'t>,
        whole: Wrapped,
        children: &[Child],
    ) -> Result<(), Memory>
        ensures ok { OnOk result (frames_view self.new.frames.items
            ≡ resuming.Reaching ask.entry.depth whole [] (children_of (map (λ child. child.oid) children.now)) (waiting_of (view.tag_view ask.entry.tag))
            ∷ frames_view self.old.frames.items) }
        ensures budget { self.new.budget ≡ self.old.budget }
        ensures out { self.new.out ≡ self.old.out }
    {
        let children = ids_of(alloc, children)?;
        let so_far = Singles::new(alloc);
        let reaching = Reaching {
            depth: ask.depth,
            whole,
            so_far,
            children,
            next: 0,
            tag: ask.tag,
        };
        push_frame(&mut self.frames, Frame::Reaching(reaching))
    }

    // The source of an object stands above the frame that waits for its text.
    fn source_step(
        &mut self,
        templates: &mut Templates,
        ask: Ask<'t>,
        object: &Wrapped,
        whole: &Object,
        stack: &mut Stack<'_>,
    ) -> Result<(), RenderRefusal>
        ensures ok { OnOk result (SourceBegun ask.entry.depth (waiting_of (view.tag_view ask.entry.tag)) object.now whole.now
            (place_of self.old stack.old) (place_of self.new stack.new)) }
        ensures told { IfErr result (λ e. (k : ℕ → Option (Seen ObjectValue)) (shown : List Shown) (scope : Scope) (left : Left) → Told (told e)
            (looked k shown (source_text self.old.budget.renders scope (first object.now) (source_of whole.now.part) left))) }
        ensures known { stack.new.known ≡ stack.old.known }
        ensures shown { stack.new.shown ≡ stack.old.shown }
        ensures inside { (base : Scope) → IsInside base stack.old.scope → IsInside base stack.new.scope }
        ensures tags { self.new.budget.tags ≡ self.old.budget.tags }
        ensures output { self.new.budget.output ≡ self.old.budget.output }
    {
        let alloc = templates.alloc();
        let tree = begun(templates, object.oid(), whole, &mut self.budget)?;
        let acting = go_into(alloc, object, whole, stack)?;
        let out = mem::replace(&mut self.out, Text::new(alloc));
        let value = Value {
            depth: ask.depth,
            acting,
            tag: ask.tag,
            out,
        };
        push_frame(&mut self.frames, Frame::Value(value))?;
        let spot = Spot::whole(alloc, Source::Read(tree))?;
        push_block(&mut self.frames, spot, stack)?;
        Ok(())
    }

    // A value is there: what it opens stands above the other frames.
    fn answered(
        &mut self,
        alloc: Global,
        tag: Tag<'t>,
        found: Found,
        stack: &mut Stack<'_>,
    ) -> Result<(), RenderRefusal>
        ensures opens { OnOk result (Opened (waiting_of (view.tag_view tag.entry)) self.old.out (found, left_of self.old.budget)
            (frames_view self.old.frames.items) self.old.budget.renders stack.old.scope (place_of self.new stack.new)) }
        ensures told { IfErr result (λ e. (k : ℕ → Option (Seen ObjectValue)) (shown : List Shown) → Told (told e)
            (looked k shown (resuming.opening (waiting_of (view.tag_view tag.entry)) self.old.out (found, left_of self.old.budget)))) }
        ensures nested { OnOk result ((low : ℕ) → AreNested low (frames_view self.old.frames.items) (length stack.old.scope.layers)
            → AreNested low (frames_view self.new.frames.items) (length stack.new.scope.layers)) }
        ensures known { stack.new.known ≡ stack.old.known }
        ensures shown { stack.new.shown ≡ stack.old.shown }
        ensures inside { (base : Scope) → IsInside base stack.old.scope → IsInside base stack.new.scope }
        ensures tags { self.new.budget.tags ≤ self.old.budget.tags }
        ensures output { self.new.budget.output ≤ self.old.budget.output }
    {
        let node = tag.node();
        let opening = answer(
            alloc,
            node,
            tag.part,
            found,
            &mut self.budget,
            &mut self.out,
        )?;
        push_opening(alloc, &mut self.frames, tag, opening, stack)?;
        Ok(())
    }

    // The children of a folder are reached, and are the value of an argument.
    fn reaching_step(
        &mut self,
        alloc: Global,
        mut reaching: Reaching<'t>,
        stack: &mut Stack<'_>,
    ) -> Result<(), RenderRefusal>
        requires nested { IsStanding (above (view.reaching_view reaching) (place_of self.old stack.old)) }
        requires deep { resuming.depth_of (view.reaching_view reaching) ≡ length stack.old.scope.layers }
        ensures steps { Steps stack.old (above (view.reaching_view reaching.entry) (place_of self.old stack.old)) (place_of self.new stack.new) result }
        ensures known { stack.new.known ≡ stack.old.known }
    {
        let parts = &mut reaching;
        let reached = reach_more(
            stack.known(),
            &parts.whole,
            parts.children.as_slice(),
            &mut parts.next,
            &mut parts.so_far,
        );
        if let Err(refusal) = reached {
            let left = self.budget;
            return Err(self.stopped(Frame::Reaching(reaching), refusal, left));
        }
        let found = Val::Seq(reaching.so_far);
        self.answered(alloc, reaching.tag, Some(found), stack)
    }

    // The text of an object's source is the value of an argument.
    fn value_step(
        &mut self,
        alloc: Global,
        value: Value<'t>,
        stack: &mut Stack<'_>,
    ) -> Result<(), RenderRefusal>
        requires nested { IsStanding (above (view.value_view value) (place_of self.old stack.old)) }
        requires deep { resuming.depth_of (view.value_view value) ≡ length stack.old.scope.layers }
        ensures steps { Steps stack.old (above (view.value_view value.entry) (place_of self.old stack.old)) (place_of self.new stack.new) result }
        ensures known { stack.new.known ≡ stack.old.known }
    {
        let _inner = stack.act(value.acting);
        // This one was taken when the source began.
        let Some(renders) = self.budget.renders.checked_add(1) else {
            return Err(RenderRefusal::Memory);
        };
        self.budget.renders = renders;
        let text = mem::replace(&mut self.out, value.out);
        let found = Val::Single(Single::Text(text));
        self.answered(alloc, value.tag, Some(found), stack)
    }

    // One step of the innermost frame, under whose layers the stack stands.
    fn step_under(
        &mut self,
        templates: &mut Templates,
        frame: Frame<'t>,
        stack: &mut Stack<'_>,
    ) -> Result<(), RenderRefusal>
        requires nested { IsStanding (above (view.frame_view frame) (place_of self.old stack.old)) }
        requires deep { resuming.depth_of (view.frame_view frame) ≡ length stack.old.scope.layers }
        ensures steps { Steps stack.old (above (view.frame_view frame.entry) (place_of self.old stack.old)) (place_of self.new stack.new) result }
        ensures known { stack.new.known ≡ stack.old.known }
    {
        let alloc = templates.alloc();
        match frame {
            Frame::Rest(rest) => self.rest_step(alloc, rest, stack),
            Frame::Ask(ask) => self.ask_step(templates, ask, stack),
            Frame::Turns(turns) => self.turns_step(alloc, turns, stack),
            Frame::Reaching(reaching) => self.reaching_step(alloc, reaching, stack),
            Frame::Value(value) => self.value_step(alloc, value, stack),
        }
    }

    // One step of the innermost frame.
    fn step(
        &mut self,
        templates: &mut Templates,
        frame: Frame<'t>,
        stack: &mut Stack<'_>,
    ) -> Result<(), RenderRefusal>
        requires nested { IsStanding (above (view.frame_view frame) (place_of self.old stack.old)) }
        ensures steps { Steps stack.old (above (view.frame_view frame.entry) (place_of self.old stack.old)) (place_of self.new stack.new) result }
        ensures known { stack.new.known ≡ stack.old.known }
    {
        cut(frame.depth(), stack);
        self.step_under(templates, frame, stack)
    }

    /// Goes on until the page has its text, or stops at the first refusal. What was rendered stays: where an object is
    /// wanted that isn't known, the page goes on from there once it is.
    ///
    /// Sources are read by these templates, which change nothing else.
    pub fn go_on(
        &mut self,
        templates: &mut Templates,
        stack: &mut Stack<'_>,
    ) -> Result<Text, RenderRefusal>
        requires stands { IsStanding (place_of self.old stack.old) }
        ensures is { Shows told (λ t. (t, left_of self.new.budget)) stack.new.shown result
            (comes_to (objects stack.old.known) (place_of self.old stack.old)) }
        ensures leads { (o : ℕ) → IfErr result (λ e. e ≡ refusals.Need o
            → Leads (objects stack.old.known) (place_of self.old stack.old) (place_of self.new stack.new)) }
        ensures stands { (o : ℕ) → IfErr result (λ e. e ≡ refusals.Need o → IsStanding (place_of self.new stack.new)) }
        ensures known { stack.new.known ≡ stack.old.known }
        ensures shown { Begins stack.old.shown stack.new.shown }
        ensures inside { (base : Scope) → Stands base (place_of self.old stack.old) → IsInside base stack.new.scope }
        ensures tags { self.new.budget.tags ≤ self.old.budget.tags }
        ensures output { self.new.budget.output ≤ self.old.budget.output }
    {
        // There are no more steps: each has its tag, its node or its frame.
        'steps: for _ in 0..u64::MAX {
            let Some(frame) = self.frames.pop() else {
                let text = mem::replace(&mut self.out, Text::new(templates.alloc()));
                return Ok(text);
            };
            self.step(templates, frame, stack)?;
        }
        Err(RenderRefusal::Memory)
    }
}
