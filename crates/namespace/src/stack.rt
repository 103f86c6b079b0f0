ghost use Rattle.std.specs.Prelude.{◌≡◌, ◌<◌, List, [], None, length, option_map, reverse, take, OnOk, OnErr, IfOk, IfSome, Ok, Some};
ghost use Rattle.std.specs.List.{find};
ghost use Rattle.std.specs.Str.{bytes_eq};
ghost use Rattle.zknown.specs.Seen.{objects};
ghost use Rattle.permissions.specs.Verdicts.{or_user};
ghost use Rattle.evaluator.specs.declared.reply.Shown.{Shown as ShownObject};
ghost use Rattle.namespace.specs.Hits.{hits, OnlyFinds};
ghost use Rattle.namespace.specs.Locating as locating;
ghost use Rattle.namespace.specs.Looks.{looked};
ghost use Rattle.namespace.specs.Names as spec;
ghost use Rattle.namespace.specs.Told.{told, OnlyAnswers, OnlyHits, Shows};
ghost use Rattle.namespace.specs.declared.val.Layer.TheVariants as layer;

use crate::acting::copy_acting;
use crate::hit::Hit;
use crate::looks::{offer, view};
use crate::naming::{all_of, in_object};
use crate::refusal::NameRefusal;
use crate::showing::Showing;
use crate::val::{Layer, Named, Names, Val};
use crate::viewed::{Viewed, lent_by};
use crate::viewer::Viewer;
use acquisition::Wrapped;
use evaluator::ShownList;
use permissions::Who;
use std::alloc::Global;
use std::marker::Model;
use std::mem;
use zbase::{Memory, Oid, Text};
use zknown::Known;
use zobject::Object;

/// The parts of a stack between two evaluations, while what is known becomes more.
#[derive(Drop)]
pub struct Resting {
    alloc: Global,
    user: Who,
    acting: Option<Who>,
    layers: Vec<Layer>,
    client: Wrapped,
    request: Names,
    shown: Showing,
}

impl Model for Resting {
    ghost use Rattle.namespace.specs.Names.{Rested};

    ghost Value = { Rested };

    ghost view = { λ s. record {
      scope = record { user = s.user; acting = s.acting; layers = s.layers.items; client = s.client; request = s.request };
      shown = s.shown;
    } };
}

impl Resting {
    /// The stack of these parts, over what is known now. Takes no memory.
    pub fn on<'k>(self, known: &'k Known) -> Stack<'k>
        ensures { result ≡ record { known = known.now; scope = self.scope; shown = self.shown } }
    {
        Stack {
            alloc: self.alloc,
            known,
            user: self.user,
            acting: self.acting,
            layers: self.layers,
            client: self.client,
            request: self.request,
            shown: self.shown,
            viewed: None,
        }
    }
}

/// The names of a page: layers that are pushed and taken away again, a client and the request's values, for a user. It
/// keeps the list of the objects that were shown, and its allocator.
///
/// Zope Book, "Variables and Advanced DTML": the DTML namespace.
#[derive(Drop)]
pub struct Stack<'k> {
    alloc: Global,
    known: &'k Known,
    user: Who,
    acting: Option<Who>,
    layers: Vec<Layer>,
    client: Wrapped,
    request: Names,
    shown: Showing,
    viewed: Option<Viewed<'k>>,
}

impl<'k> Model for Stack<'k> {
    ghost use Rattle.permissions.specs.Verdicts.{or_user};
    ghost use Rattle.namespace.specs.Names.{Space};
    ghost use Rattle.namespace.specs.Viewing.{IsRemembered};

    ghost Value = { Space };

    ghost view = { λ s. record {
      known = s.known.now;
      scope = record { user = s.user; acting = s.acting; layers = s.layers.items; client = s.client; request = s.request };
      shown = s.shown;
    } };

    ghost invariant = { λ s. IsRemembered s.known.now (or_user s.user s.acting) s.shown s.viewed };
}

// The user of the verdicts.
fn whose<'a>(user: &'a Who, acting: Option<&'a Who>) -> &'a Who
    ensures { result.now ≡ or_user user.now (option_map (λ w. w.now) acting.entry) }
{
    match acting {
        None => user,
        Some(other) => other,
    }
}

fn named<'a>(names: &'a [Named], name: &str) -> Option<&'a Named>
    ensures { option_map (λ n. n.now) result ≡ find (λ n. bytes_eq n.name name.now) names.now }
{
    names.iter().find(|named| named.name.as_str() == name)
}

fn value_in<'k>(names: &[Named], name: &str) -> Result<Option<Hit<'k>>, Memory>
    ensures is { IfOk result (λ hit. hits hit ≡ locating.found_of (spec.value_in name.now names.now)) }
    ensures shown { (shown : List ShownObject) → OnlyFinds shown shown result }
{
    match named(names, name) {
        Some(named) => Ok(Some(Hit::Found(named.val.copy()?))),
        None => Ok(None),
    }
}

#[tactic(auto, unfolding(crate::specs::Locating::located_in_layer))]
fn in_layer<'k>(
    viewer: &Viewer<'_, 'k>,
    shown: &mut Showing,
    name: &str,
    layer: &Layer,
) -> Result<Option<Hit<'k>>, NameRefusal>
    ensures is { Shows told hits shown.new result
        (looked (objects viewer.now.known.now) shown.old (locating.located_in_layer viewer.now.who.now name.now layer.now)) }
    ensures shown { OnlyFinds shown.old shown.new result }
{
    match layer {
        Layer::Names(names) => Ok(value_in(names.as_slice(), name)?),
        Layer::Object(whole) => in_object(viewer, shown, name, whole),
    }
}

// In the newest of these layers that has the name; the oldest comes first in the list.
#[tactic(auto, unfolding(crate::specs::Locating::located_in_layers))]
fn in_layers<'k>(
    viewer: &Viewer<'_, 'k>,
    shown: &mut Showing,
    name: &str,
    layers: &[Layer],
) -> Result<Option<Hit<'k>>, NameRefusal>
    ensures is { Shows told hits shown.new result
        (looked (objects viewer.now.known.now) shown.old (locating.located_in_layers viewer.now.who.now name.now (reverse layers.now))) }
    ensures shown { OnlyFinds shown.old shown.new result }
{
    let mut left = layers;
    while let Some((layer, older)) = left.split_last() {
        let hit = in_layer(viewer, shown, name, layer)?;
        if hit.is_some() {
            return Ok(hit);
        }
        left = older;
    }
    Ok(None)
}

// In the client, and then among the request's values.
#[tactic(auto, using(crate::proofs::Steps::stops), unfolding(crate::specs::Locating::located_in_base))]
fn in_base<'k>(
    viewer: &Viewer<'_, 'k>,
    shown: &mut Showing,
    name: &str,
    client: &Wrapped,
    request: &[Named],
) -> Result<Option<Hit<'k>>, NameRefusal>
    ensures is { Shows told hits shown.new result
        (looked (objects viewer.now.known.now) shown.old (locating.located_in_base viewer.now.who.now name.now client.now request.now)) }
    ensures shown { OnlyFinds shown.old shown.new result }
{
    let hit = in_object(viewer, shown, name, client)?;
    if hit.is_some() {
        return Ok(hit);
    }
    Ok(value_in(request, name)?)
}

// In the newest layer that has the name, or else in the client, and then among the request's values.
#[tactic(auto, using(crate::proofs::Steps::stops), unfolding(crate::specs::Locating::located_for))]
fn locate_in<'k>(
    viewer: &Viewer<'_, 'k>,
    shown: &mut Showing,
    name: &str,
    layers: &[Layer],
    client: &Wrapped,
    request: &[Named],
) -> Result<Option<Hit<'k>>, NameRefusal>
    ensures is { Shows told hits shown.new result
        (looked (objects viewer.now.known.now) shown.old (locating.located_for viewer.now.who.now name.now layers.now client.now request.now)) }
    ensures shown { OnlyFinds shown.old shown.new result }
{
    let hit = in_layers(viewer, shown, name, layers)?;
    if hit.is_some() {
        return Ok(hit);
    }
    in_base(viewer, shown, name, client, request)
}

impl<'k> Stack<'k> {
    /// A stack without layers, on which nothing was shown. Takes no memory.
    pub fn new(
        alloc: Global,
        known: &'k Known,
        user: Who,
        client: Wrapped,
        request: Names,
    ) -> Stack<'k>
        ensures { result ≡ record {
          known = known.now;
          scope = record { user = user; acting = None; layers = []; client = client; request = request };
          shown = [];
        } }
    {
        Stack {
            alloc,
            known,
            user,
            acting: None,
            layers: Vec::new(alloc),
            client,
            request,
            shown: Showing::new(alloc),
            viewed: None,
        }
    }

    /// Pushes names. For want of memory the stack stays as it was.
    pub fn push_names(&mut self, names: Names) -> Result<(), Memory>
        ensures ok { OnOk result (self.new ≡ record self.old { scope = spec.push (layer.Names names) self.old.scope }) }
        ensures err { OnErr result (self.new ≡ self.old) }
    {
        self.layers.push(Layer::Names(names))?;
        Ok(())
    }

    /// Pushes an object. For want of memory the stack stays as it was.
    pub fn push_object(&mut self, object: Wrapped) -> Result<(), Memory>
        ensures ok { OnOk result (self.new ≡ record self.old { scope = spec.push (layer.Object object) self.old.scope }) }
        ensures err { OnErr result (self.new ≡ self.old) }
    {
        self.layers.push(Layer::Object(object))?;
        Ok(())
    }

    /// Takes away what was pushed last. Takes no memory.
    pub fn pop(&mut self)
        requires { 0 < length self.old.scope.layers }
        ensures { self.new ≡ record self.old { scope = spec.popped self.old.scope } }
    {
        let _popped = self.layers.pop();
    }

    /// Sets in whose place later verdicts are taken for someone else, nobody's where it is none, and answers who that
    /// was before. Takes no memory.
    pub fn act(&mut self, acting: Option<Who>) -> Option<Who>
        ensures set { self.new ≡ record self.old { scope = spec.act acting self.old.scope } }
        ensures former { result ≡ self.old.scope.acting }
    {
        self.viewed = None;
        mem::replace(&mut self.acting, acting)
    }

    /// In whose place later verdicts are taken for someone else, if they are.
    pub fn acting(&self) -> Result<Option<Who>, Memory>
        ensures { IfOk result (λ acting. acting ≡ self.now.scope.acting) }
    {
        copy_acting(self.acting.as_ref())
    }

    /// What a name leads to: in the layers from the newest, then in the client, then among the request's values. None
    /// exactly where none of them has it.
    ///
    /// A refusal is that of the first object or permission that is wanted on this way. Only a value shows an object: after
    /// a refusal, want of memory included, the stack is what it was.
    pub fn locate(&mut self, name: &str) -> Result<Option<Hit<'k>>, NameRefusal>
        ensures is { Shows told hits self.new.shown result (looked (objects self.old.known) self.old.shown (locating.located self.old.scope name.now)) }
        ensures known { self.new.known ≡ self.old.known }
        ensures scope { self.new.scope ≡ self.old.scope }
        ensures shown { OnlyFinds self.old.shown self.new.shown result }
    {
        let viewer = Viewer {
            alloc: self.alloc,
            known: self.known,
            who: whose(&self.user, self.acting.as_ref()),
        };
        let layers = self.layers.as_slice();
        let request = self.request.as_slice();
        locate_in(
            &viewer,
            &mut self.shown,
            name,
            layers,
            &self.client,
            request,
        )
    }

    /// The value of a name: what it leads to, with the children of a folder reached.
    ///
    /// A refusal is that of the first object or permission that is wanted on this way. Only a hit shows an object: after a
    /// refusal, want of memory included, the stack is what it was.
    #[tactic(auto, using(crate::proofs::Steps::stops))]
    pub fn find(&mut self, name: &str) -> Result<Option<Val>, NameRefusal>
        ensures is { Shows told (λ v. v) self.new.shown result (looked (objects self.old.known) self.old.shown (spec.named self.old.scope name.now)) }
        ensures known { self.new.known ≡ self.old.known }
        ensures scope { self.new.scope ≡ self.old.scope }
        ensures shown { OnlyHits self.old.shown self.new.shown result }
    {
        let hit = self.locate(name)?;
        all_of(self.alloc, self.known, hit)
    }

    // What a name leads to in an object.
    fn locate_within(
        &mut self,
        object: &Wrapped,
        name: &str,
    ) -> Result<Option<Hit<'k>>, NameRefusal>
        ensures is { Shows told hits self.new.shown result
            (looked (objects self.old.known) self.old.shown (locating.located_in (spec.whose self.old.scope) object.now name.now)) }
        ensures known { self.new.known ≡ self.old.known }
        ensures scope { self.new.scope ≡ self.old.scope }
        ensures shown { OnlyFinds self.old.shown self.new.shown result }
    {
        let viewer = Viewer {
            alloc: self.alloc,
            known: self.known,
            who: whose(&self.user, self.acting.as_ref()),
        };
        in_object(&viewer, &mut self.shown, name, object)
    }

    /// The value of a name in an object. None exactly where the object hasn't it.
    #[tactic(auto, using(crate::proofs::Steps::stops))]
    pub fn look(&mut self, object: &Wrapped, name: &str) -> Result<Option<Val>, NameRefusal>
        ensures is { Shows told (λ v. v) self.new.shown result
            (looked (objects self.old.known) self.old.shown (spec.in_object (spec.whose self.old.scope) object.now name.now)) }
        ensures known { self.new.known ≡ self.old.known }
        ensures scope { self.new.scope ≡ self.old.scope }
        ensures shown { OnlyHits self.old.shown self.new.shown result }
    {
        let hit = self.locate_within(object, name)?;
        all_of(self.alloc, self.known, hit)
    }

    /// The object with its contents, which the user must be granted to view; it is then shown.
    pub fn open(&mut self, oid: Oid) -> Result<&'k Object, NameRefusal>
        ensures is { Shows told (λ o. o.now) self.new.shown result
            (looked (objects self.old.known) self.old.shown (spec.viewing (spec.whose self.old.scope) oid)) }
        ensures known { self.new.known ≡ self.old.known }
        ensures scope { self.new.scope ≡ self.old.scope }
        ensures shown { OnlyAnswers self.old.shown self.new.shown result }
    {
        let who = whose(&self.user, self.acting.as_ref());
        let object = view(self.alloc, self.known, who, &mut self.shown, oid)?;
        self.viewed = Some(Viewed { oid, object });
        Ok(object)
    }

    /// That the user is granted to view an object, which is then shown.
    #[tactic(auto, using(crate::proofs::Steps::goes, crate::proofs::Steps::stops))]
    pub fn view(&mut self, oid: Oid) -> Result<(), NameRefusal>
        ensures is { Shows told (λ u. tt {0}) self.new.shown result
            (looked (objects self.old.known) self.old.shown (spec.allowing (spec.whose self.old.scope) oid)) }
        ensures known { self.new.known ≡ self.old.known }
        ensures scope { self.new.scope ≡ self.old.scope }
        ensures shown { OnlyAnswers self.old.shown self.new.shown result }
    {
        let _object = self.open(oid)?;
        Ok(())
    }

    /// Whether the user is granted to view an object, which is then shown.
    pub fn offer(&mut self, oid: Oid) -> Result<bool, NameRefusal>
        ensures is { Shows told (λ b. b) self.new.shown result
            (looked (objects self.old.known) self.old.shown (spec.offering (spec.whose self.old.scope) oid)) }
        ensures known { self.new.known ≡ self.old.known }
        ensures scope { self.new.scope ≡ self.old.scope }
        ensures shown { OnlyAnswers self.old.shown self.new.shown result }
    {
        let who = whose(&self.user, self.acting.as_ref());
        offer(self.alloc, self.known, who, &mut self.shown, oid)
    }

    /// What is known of the objects. Takes no memory.
    pub fn known(&self) -> &'k Known
        ensures { result.now ≡ self.now.known }
    {
        self.known
    }

    /// The text that the object that was viewed last lends under a name, where that object is the newest layer. Takes no
    /// memory.
    pub fn lent(&self, name: &str) -> Option<&'k Text>
        ensures { IfSome result (λ text. looked (objects self.now.known) self.now.shown (spec.named self.now.scope name.now)
            ≡ Ok (Some (spec.text text.now), self.now.shown)) }
    {
        let Some(viewed) = &self.viewed else {
            return None;
        };
        match self.layers.as_slice().split_last() {
            Some((Layer::Object(whole), _)) => lent_by(viewed, whole, name),
            _ => None,
        }
    }

    /// How many layers were pushed and not taken away. Takes no memory.
    pub fn depth(&self) -> usize
        ensures { result ≡ length self.now.scope.layers }
    {
        self.layers.len()
    }

    /// The objects that were shown, in the order of their first use. Takes no memory.
    pub fn shown(&self) -> &ShownList
        ensures { result.now ≡ self.now.shown }
    {
        self.shown.list()
    }

    /// Forgets all shown objects but the first ones, so many. Takes no memory.
    pub fn forget(&mut self, count: usize)
        ensures { self.new ≡ record self.old { shown = take count self.old.shown } }
    {
        let _viewed = self.viewed.take();
        self.shown.forget(count);
    }

    /// The parts of the stack, without what is known. Takes no memory.
    pub fn rest(self) -> Resting
        ensures { result ≡ record { scope = self.entry.scope; shown = self.entry.shown } }
    {
        Resting {
            alloc: self.alloc,
            user: self.user,
            acting: self.acting,
            layers: self.layers,
            client: self.client,
            request: self.request,
            shown: self.shown,
        }
    }

    /// The objects that were shown, in the order of their first use, handed out with what else the stack held dropped. Takes
    /// no memory.
    pub fn into_shown(self) -> ShownList
        ensures { result ≡ self.entry.shown }
    {
        self.shown.into_list()
    }
}
