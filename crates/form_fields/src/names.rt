ghost use Rattle.std.specs.Prelude.{◌≡◌, option_map};
ghost use Rattle.form_fields.specs.Names as spec;
ghost use Rattle.form_fields.specs.Views.{named_view};

/// A name without its suffixes, with what these say.
#[derive(Clone, Copy, Debug)]
pub(crate) struct Named<'a> {
    pub name: &'a str,
    pub is_int: bool,
    pub is_list: bool,
}

// The name without that suffix, where it has it.
fn without<'a>(suffix: &str, name: &'a str) -> Option<&'a str>
    ensures { option_map (λ rest. rest.now) result ≡ spec.without suffix.now name.now }
{
    name.strip_suffix(suffix)
}

// The name without the suffix at its end, where it has one.
fn shorter<'a>(named: Named<'a>) -> Option<Named<'a>>
    ensures { option_map named_view result ≡ spec.shorter (named_view named.entry) }
{
    let Named {
        name,
        is_int,
        is_list,
    } = named;
    if let Some(name) = without(":int", name) {
        return Some(Named {
            name,
            is_int: true,
            is_list,
        });
    }
    if let Some(name) = without(":list", name) {
        return Some(Named {
            name,
            is_int,
            is_list: true,
        });
    }
    if let Some(name) = without(":string", name) {
        return Some(Named {
            name,
            is_int,
            is_list,
        });
    }
    None
}

/// A name, with its suffixes taken off from the right as long as there are any.
pub(crate) fn named_by<'a>(name: &'a str) -> Named<'a>
    ensures { named_view result ≡ spec.named_by name.now }
{
    let mut named = Named {
        name,
        is_int: false,
        is_list: false,
    };
    'suffixes: while let Some(next) = shorter(named) {
        named = next;
    }
    named
}
