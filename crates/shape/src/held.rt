// What the top level of a message holds, by value.
ghost use Rattle.std.specs.Prelude.{◌≡◌, cond};
ghost use Rattle.rows.specs.Rows.{present};
ghost use Rattle.rows.specs.Inner.Views.{the_entries};
ghost use Rattle.headers.specs.Components.{flattened_form, general_form};
ghost use Rattle.headers.specs.Answers.{place_of};
ghost use Rattle.shape.specs.Shape.{component, recipients};
ghost use Rattle.shape.specs.Recipients.{top_of};
ghost use Rattle.shape.specs.Inner.Answers.{top_in};

use crate::number;
use headers::Components;
use prelude::Place;
use rows::table::Entries;

// The forms.
const FLATTENED: u32 = 1;

const GENERAL: u32 = 2;

// The form, whether a protected header is there, where the shared header stands (0 where there is none), and the components but
// the keys.
#[derive(Clone, Copy)]
pub struct Top {
    pub form: u32,
    pub protected: bool,
    pub shared: usize,
    pub components: Components,
}

// The place of a component without its quotation marks; 0, 0 where it is absent.
pub(crate) fn component(members: Entries, n: u32) -> Place
    ensures { place_of result ≡ component n (the_entries members.entry) }
{
    let value = members.value_of(n);
    if value.len == 0 {
        return Place { start: 0, len: 0 };
    }
    Place {
        start: value.start + 1,
        len: prelude::minus(value.len, 2),
    }
}

// General where there is the member `recipients`.
fn form(members: Entries) -> u32
    ensures { result ≡ cond (present recipients (the_entries members.entry)) general_form flattened_form }
{
    if members.present(number::RECIPIENTS) {
        GENERAL
    } else {
        FLATTENED
    }
}

// What the first entries hold, which are those of a top level.
pub fn held(members: Entries) -> Top
    ensures { top_in result ≡ top_of (the_entries members.entry) }
{
    Top {
        form: form(members),
        protected: members.present(number::PROTECTED),
        shared: members.value_of(number::UNPROTECTED).start,
        components: Components {
            protected: component(members, number::PROTECTED),
            key: Place { start: 0, len: 0 },
            iv: component(members, number::IV),
            aad: component(members, number::AAD),
            ciphertext: component(members, number::CIPHERTEXT),
            tag: component(members, number::TAG),
        },
    }
}
