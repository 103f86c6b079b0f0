ghost use Rattle.std.specs.Prelude.{◌≡◌, IfOk};
ghost use Rattle.zobject.specs.Rules.{IsObject, Keeps};
ghost use Rattle.zobject.specs.declared.version.Rule.TheVariants.{UserName};
ghost use Rattle.new_site.specs.NewSite as site;

use fs_record::{Body, Item};
use std::alloc::Global;
use user_folder::keep;
use zbase::{Bytes, Items, Memory, Oid, Text};
use zcodec::encode;
use zobject::{Child, Children, Object, Part2, Roles, User, Users};

/// The root folder.
const ROOT: Oid = Oid(0);

/// The user folder of the root.
const USERS: Oid = Oid(1);

/// The page that the root shows.
const START_PAGE: Oid = Oid(2);

const START_SOURCE: &str = "<html><body><h1><dtml-var title html_quote></h1></body></html>";

// An object in the root folder, or the root itself, that was just made.
fn new_object(alloc: Global, id: &str, title: &str, part: Part2) -> Result<Object, Memory>
    ensures { IfOk result (λ o. o ≡ site.made id.now title.now part) }
{
    Ok(Object {
        id: Text::from_str(alloc, id)?,
        parent: ROOT,
        title: Text::from_str(alloc, title)?,
        settings: Items::new(alloc),
        locals: Items::new(alloc),
        properties: Items::new(alloc),
        part,
    })
}

fn child(alloc: Global, name: &str, oid: Oid) -> Result<Child, Memory>
    ensures { IfOk result (λ c. c ≡ site.child name.now oid) }
{
    Ok(Child {
        name: Text::from_str(alloc, name)?,
        oid,
    })
}

fn root(alloc: Global) -> Result<Object, Memory>
    ensures { IfOk result (λ o. o ≡ site.root) }
{
    let users = child(alloc, "acl_users", USERS)?;
    let page = child(alloc, "index_html", START_PAGE)?;
    let children = Children::from_vec(vec![in alloc; users, page]?);
    new_object(alloc, "", "Zope", Part2::Folder(children))
}

fn manager(alloc: Global, name: &str, password: &str) -> Result<User, Memory>
    ensures { IfOk result (λ u. u ≡ site.manager name.now password.now) }
{
    let role = Text::from_str(alloc, "Manager")?;
    Ok(User {
        name: Text::from_str(alloc, name)?,
        password: keep(alloc, password)?,
        roles: Roles::from_vec(vec![in alloc; role]?),
    })
}

fn user_folder(alloc: Global, name: &str, password: &str) -> Result<Object, Memory>
    ensures { IfOk result (λ o. o ≡ site.user_folder name.now password.now) }
{
    let manager = manager(alloc, name, password)?;
    let users = Users::from_vec(vec![in alloc; manager]?);
    new_object(alloc, "acl_users", "", Part2::UserFolder(users))
}

fn start_page(alloc: Global) -> Result<Object, Memory>
    ensures { IfOk result (λ o. o ≡ site.start_page) }
{
    let part = Part2::Method {
        source: Text::from_str(alloc, START_SOURCE)?,
        proxy: Roles::new(alloc),
    };
    new_object(alloc, "index_html", "", part)
}

// What is written of an object that there wasn't before.
fn first_item(alloc: Global, oid: Oid, object: &Object) -> Result<Item, Memory>
    requires lawful { IsObject object.now }
    ensures { IfOk result (λ item. item ≡ site.first_item oid object.now) }
{
    Ok(Item {
        oid,
        prev: 0,
        body: Body::Full(encode(alloc, object)?),
    })
}

/// What is written of the objects of a new site, whose manager has this name and password.
#[tactic(auto, using(crate::specs::SiteLaws::root_is, crate::specs::SiteLaws::users_is, crate::specs::SiteLaws::page_is))]
pub(crate) fn first_items(alloc: Global, name: &str, password: &str) -> Result<Items<Item>, Memory>
    requires name { Keeps UserName name.now }
    ensures { IfOk result (λ items. items ≡ site.items name.now password.now) }
{
    let root = first_item(alloc, ROOT, &root(alloc)?)?;
    let users = first_item(alloc, USERS, &user_folder(alloc, name, password)?)?;
    let page = first_item(alloc, START_PAGE, &start_page(alloc)?)?;
    Ok(Items::from_vec(vec![in alloc; root, users, page]?))
}
