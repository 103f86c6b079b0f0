ghost use Rattle.std.specs.Prelude.{◌≡◌, ◌<◌, ◌^◌, ℕ, List, length};
ghost use Rattle.fs_record.specs.File.{Front};
ghost use Rattle.fs_record.specs.Opening.{Cut};
ghost use Rattle.zobject.specs.Rules.{IsObject, Keeps};
ghost use Rattle.zobject.specs.declared.version.Rule.TheVariants.{UserName};
ghost use Rattle.new_site.specs.NewSite.{root, site_file, site_history, start_page, user_folder};

/// The objects of a new site keep the rules of objects, and its file opens, with nothing behind it, to the history of its
/// one transaction.
pub fn new_sites_open()
    ensures root { IsObject root }
    ensures users { (name password : List ℕ) → Keeps UserName name → IsObject (user_folder name password) }
    ensures page { IsObject start_page }
    ensures opens { (stamp : ℕ) (name password : List ℕ) → 0 < stamp → stamp < 2 ^ 64 → Keeps UserName name →
        (front : Front) × Cut (site_file stamp name password) front (length (site_file stamp name password))
        × (front.history ≡ site_history stamp name password) }
{}
