ghost use Rattle.std.specs.Prelude.{◌≡◌};
ghost use Rattle.manage.specs.Calls as calls;
ghost use Rattle.manage.specs.Undoing as undoing;

use crate::call::Call;
use acquisition::AqRefusal;
use dtml_lex::DtmlRefusal;
use evaluator::Ask;
use fs_undo::UndoHalt;
use std::alloc::AllocFailed;
use zbase::{Memory, Oid, Text, Tid};

/// A field of the calls.
#[derive(Clone, Copy, Debug, PartialEq, Eq)]
pub enum FieldName {
    /// `acquire`: whether the roles of the containers count too.
    Acquire,
    /// `data`: a source.
    Data,
    /// `file`: the source of a new object.
    File,
    /// `id`: an id or a name.
    Id,
    /// `ids`: ids or names.
    Ids,
    /// `name`: the name of a user.
    Name,
    /// `new_id`: another id.
    NewId,
    /// `password`: the password of a user.
    Password,
    /// `permission_to_manage`: the name of a permission.
    Permission,
    /// `roles`: names of roles.
    Roles,
    /// `tid`: the id of a transaction.
    Tid,
    /// `title`: a title.
    Title,
    /// `userid`: the name of a user.
    UserId,
    /// `userids`: names of users.
    UserIds,
    /// `value`: the value of a property.
    Value,
    /// `type`: the type of a property.
    ValueType,
}

/// The name that a form gives a field. Takes no memory.
pub fn field_name(field: FieldName) -> &'static str
    ensures { result.now ≡ calls.field_text field }
{
    match field {
        FieldName::Acquire => "acquire",
        FieldName::Data => "data",
        FieldName::File => "file",
        FieldName::Id => "id",
        FieldName::Ids => "ids",
        FieldName::Name => "name",
        FieldName::NewId => "new_id",
        FieldName::Password => "password",
        FieldName::Permission => "permission_to_manage",
        FieldName::Roles => "roles",
        FieldName::Tid => "tid",
        FieldName::Title => "title",
        FieldName::UserId => "userid",
        FieldName::UserIds => "userids",
        FieldName::Value => "value",
        FieldName::ValueType => "type",
    }
}

/// Why a call changes nothing. For a field the first that applies is given, field by field in the order of the call.
#[derive(Debug, Drop)]
pub enum ManageRefusal {
    /// Want of memory. It may come in place of any answer.
    Memory,
    /// The first ask that isn't known.
    Need(Ask),
    /// The first object that is needed and is absent, or is no record.
    Broken(Oid),
    /// It is no call on such an object, or not by that method.
    NotFound(Call),
    /// A field is absent that has to be there.
    Missing(FieldName),
    /// A field has a list where one value is due, or breaks its rule in another way than by too many bytes.
    BadField(FieldName),
    /// A field has more bytes than its rule allows.
    TooLong(FieldName),
    /// A list has no such id: the first of those that were given.
    NoSuchId(Text),
    /// There is one of that name already.
    Taken(Text),
    /// There would be more than a limit allows.
    TooMany,
    /// A source is no template, and why.
    BadSource(DtmlRefusal),
    /// The containers of the object don't reach the root within 64.
    TooDeep,
    /// No transaction that can be undone has this id.
    NoSuchTransaction(Tid),
    /// The first object that has another value now than the transaction gave it.
    UndoChanged(Oid),
}

impl From<Memory> for ManageRefusal {
    ghost use Rattle.std.specs.Prelude.{◌≡◌};
    ghost use Rattle.manage.specs.declared.refusal.ManageRefusal.TheVariants as refusals;

    ghost from_gives = { λ _ e. e ≡ refusals.Memory };

    fn from(_: Memory) -> ManageRefusal {
        ManageRefusal::Memory
    }
}

impl<T: Drop> From<AllocFailed<T>> for ManageRefusal {
    ghost use Rattle.std.specs.Prelude.{◌≡◌};
    ghost use Rattle.manage.specs.declared.refusal.ManageRefusal.TheVariants as refusals;

    ghost from_gives = { λ _ e. e ≡ refusals.Memory };

    fn from(_: AllocFailed<T>) -> ManageRefusal {
        ManageRefusal::Memory
    }
}

impl From<AqRefusal> for ManageRefusal {
    ghost use Rattle.std.specs.Prelude.{◌≡◌};
    ghost use Rattle.manage.specs.Changing.{no_depth};

    ghost from_gives = { λ cause e. e ≡ no_depth cause };

    fn from(cause: AqRefusal) -> ManageRefusal {
        match cause {
            AqRefusal::Memory => ManageRefusal::Memory,
            AqRefusal::Need(oid) => ManageRefusal::Need(Ask::Object(oid)),
            AqRefusal::Broken(oid) => ManageRefusal::Broken(oid),
            AqRefusal::TooDeep => ManageRefusal::TooDeep,
        }
    }
}

impl From<UndoHalt> for ManageRefusal {
    ghost from_gives = { λ halt e. e ≡ undoing.refusal_of halt };

    fn from(halt: UndoHalt) -> ManageRefusal {
        match halt {
            UndoHalt::Memory => ManageRefusal::Memory,
            UndoHalt::Need(ask) => ManageRefusal::Need(ask),
            UndoHalt::NoTransaction(tid) => ManageRefusal::NoSuchTransaction(tid),
            UndoHalt::Changed(oid) => ManageRefusal::UndoChanged(oid),
        }
    }
}
