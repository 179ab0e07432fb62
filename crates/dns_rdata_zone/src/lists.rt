//! Lists with a comma between two items.

ghost use Rattle.std.specs.Prelude.{◌≡◌, ◌++◌, ℕ, List, Some, codes, flat_map};
ghost use Rattle.std.specs.Fmt.{DisplaysOnOk};
ghost use Rattle.dns_rdata_zone.specs.Lists.{commas};

use std::fmt;

/// An item of a list.
pub(crate) trait ListItem {
    /// Its text.
    ghost item_text: { Self → List ℕ };

    /// Writes its text.
    fn write_item<W: fmt::Write>(&self, f: &mut fmt::Formatter<W>) -> fmt::Result
        ensures writes { DisplaysOnOk W.write_str_gives f.old result (Some (item_text self.now)) f.new };
}

/// Items, with a comma before each.
#[derive(Clone, Copy)]
struct Further<'a, T>(&'a [T]);

impl<T: ListItem> fmt::Display for Further<'_, T> {
    ghost output = { λ x. Some (flat_map (λ y. codes "," ++ T.item_text y) x.0.now) };

    fn fmt<W: fmt::Write>(&self, f: &mut fmt::Formatter<W>) -> fmt::Result {
        let items = self.0;
        for item in items {
            f.write_str(",")?;
            item.write_item(f)?;
        }
        Ok(())
    }
}

/// Items, with a comma between two.
#[derive(Clone, Copy)]
pub(crate) struct Commas<'a, T>(pub &'a [T]);

impl<T: ListItem> fmt::Display for Commas<'_, T> {
    ghost output = { λ x. Some (commas T.item_text x.0.now) };

    fn fmt<W: fmt::Write>(&self, f: &mut fmt::Formatter<W>) -> fmt::Result {
        let items = self.0;
        let Some((first, others)) = items.split_first() else {
            return Ok(());
        };
        first.write_item(f)?;
        f.write(Further(others))
    }
}
