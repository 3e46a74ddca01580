ghost use Rattle.std.specs.Prelude.{◌≡◌, ◌+◌, ◌*◌, [], length, IfOk};
ghost use Rattle.std.specs.Str.{chars};
ghost use Rattle.stx_base.specs.Spare.{IsBounded, Gains, without_last};

use crate::list::List;
use crate::memory::Memory;
use crate::name::{Attr, Name};
use crate::text::Text;
use std::alloc::Global;
use std::marker::Model;

/// A made text has room for so many bytes at least, so that most of the texts that are made of it later need no more.
const ROOM: usize = 64;

/// A text with more room is not kept.
const MOST_ROOM: usize = 256;

/// No more texts are kept.
const MOST: usize = 1024;

/// A list with room for more attributes is not kept.
const MOST_ATTRS: usize = 16;

/// No more lists of attributes are kept.
const MOST_LISTS: usize = 64;

/// Texts that are done with, and lists of attributes, kept so that the next ones need no memory of their own: 256 KiB of texts at most,
/// and some short lists.
///
/// Contracts see what room is kept, which is bounded, and not what it held: that shows in nothing.
#[derive(Debug, Drop)]
pub struct Spare {
    alloc: Global,
    strings: Vec<String>,
    lists: Vec<Vec<Attr>>,
}

impl Model for Spare {
    ghost use Rattle.std.specs.Prelude.{map, string_capacity, vec_capacity};
    ghost use Rattle.stx_base.specs.Spare.{Kept, IsBounded};

    ghost Value = { Kept };

    ghost view = { λ spare. record { texts = map string_capacity spare.strings.items; lists = map vec_capacity spare.lists.items } };

    ghost invariant = { λ spare. IsBounded (record { texts = map string_capacity spare.strings.items; lists = map vec_capacity spare.lists.items }) };
}

impl Spare {
    /// One that has nothing yet. Allocates nothing.
    pub fn new(alloc: Global) -> Spare
        ensures { result ≡ record { texts = []; lists = [] } }
    {
        Spare {
            alloc,
            strings: Vec::new(alloc),
            lists: Vec::new(alloc),
        }
    }

    /// A text of these characters, made of the last that is kept.
    #[inline]
    pub fn text(&mut self, text: &str) -> Result<Text, Memory>
        ensures made { IfOk result (λ made. made ≡ chars text.now) }
        ensures takes { self.new ≡ record { texts = without_last self.old.texts; lists = self.old.lists } }
        ensures bounded { IsBounded self.new }
    {
        let mut string = match self.strings.pop() {
            Some(string) => string,
            None => String::with_capacity(self.alloc, text.len().max(ROOM))?,
        };
        string.clear();
        string.push_str(text)?;
        Ok(Text::from_string(string))
    }

    /// Takes a text back, unless it has too little room or too much, or many are kept already.
    #[inline]
    pub fn keep(&mut self, text: Text)
        ensures gains { Gains 1 0 self.old self.new }
        ensures bounded { IsBounded self.new }
    {
        let string = text.into_string();
        let room = string.capacity();
        if room >= ROOM && room <= MOST_ROOM && self.strings.len() < MOST {
            // Where memory doesn't suffice, it is dropped.
            let _ = self.strings.push(string);
        }
    }

    /// Takes the texts of a name back.
    pub fn keep_name(&mut self, name: Name)
        ensures gains { Gains 3 0 self.old self.new }
        ensures bounded { IsBounded self.new }
    {
        let Name { uri, local, prefix } = name;
        self.keep(uri);
        self.keep(local);
        self.keep(prefix);
    }

    /// Takes the texts of an attribute back.
    pub fn keep_attr(&mut self, attr: Attr)
        ensures gains { Gains 4 0 self.old self.new }
        ensures bounded { IsBounded self.new }
    {
        let Attr { name, value } = attr;
        self.keep_name(name);
        self.keep(value);
    }

    /// A list of no attributes, the last that is kept. Allocates nothing.
    #[inline]
    pub fn attrs(&mut self) -> List<Attr>
        ensures made { result ≡ [] }
        ensures takes { self.new ≡ record { texts = self.old.texts; lists = without_last self.old.lists } }
        ensures bounded { IsBounded self.new }
    {
        let mut attrs = match self.lists.pop() {
            Some(attrs) => attrs,
            None => Vec::new(self.alloc),
        };
        attrs.clear();
        List::from_vec(attrs)
    }

    /// Takes a list of attributes back, and their texts, the list itself unless it has too much room.
    pub fn keep_attrs(&mut self, mut attrs: List<Attr>)
        ensures gains { Gains (4 * length attrs) 1 self.old self.new }
        ensures bounded { IsBounded self.new }
    {
        while let Some(attr) = attrs.pop() {
            self.keep_attr(attr);
        }
        self.keep_list(attrs.into_vec());
    }

    fn keep_list(&mut self, attrs: Vec<Attr>)
        ensures gains { Gains 0 1 self.old self.new }
        ensures bounded { IsBounded self.new }
    {
        if attrs.capacity() <= MOST_ATTRS && self.lists.len() < MOST_LISTS {
            // Where memory doesn't suffice, it is dropped.
            let _ = self.lists.push(attrs);
        }
    }
}
