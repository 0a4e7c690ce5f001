//! Lists of values, in memory and on a page.
ghost use Rattle.std.specs.Prelude.{◌≡◌, ◌≤◌, ◌+◌, ◌++◌, List, length, flat_map};

use jn_base::PageWriter;
use jn_fields::Field;
use std::marker::Model;

/// A list of values. It is made from a `Vec` and gives it back without taking memory.
#[derive(Drop)]
pub struct ListOf<X> {
    items: Vec<X>,
}

impl<X> Model for ListOf<X> {
    ghost use Rattle.std.specs.Prelude.{List};
    ghost use Rattle.std.specs.Coded.{coded_list};

    ghost Value = { List X };

    ghost coded = { coded_list X.code };

    ghost view = { λ l. l.items.items };
}

impl<X> ListOf<X> {
    pub fn from_vec(items: Vec<X>) -> Self
        ensures { result ≡ items.items }
    {
        ListOf { items }
    }

    pub fn into_vec(self) -> Vec<X>
        ensures { result.items ≡ self }
    {
        self.items
    }

    pub fn as_slice(&self) -> &[X]
        ensures { result.now ≡ self.now }
    {
        &self.items
    }
}

/// Puts the values one after another.
pub fn put_list<const N: usize, F: Field<N>>(page: &mut PageWriter, list: &[F])
    requires small { N ≤ 512 }
    requires room { length page.old + length (flat_map F.spelled list.now) ≤ 512 }
    ensures { page.new ≡ page.old ++ flat_map F.spelled list.now }
{
    for field in list {
        page.put_bytes(&field.to_bytes());
    }
}
