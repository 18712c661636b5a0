//! What declaration specifiers say (C11 6.7).

ghost use Rattle.std.specs.Prelude.{◌≡◌, [], ◌∷◌, ◌++◌, OnOk};
ghost use Rattle.c_rules.specs.Scopes.{State as Known};
ghost use Rattle.c_rules.specs.Specifiers as spec;
ghost use Rattle.c_tags.specs.Parts.{specified};

use c_kinds::CType;
use c_scopes::State;
use c_tree::{BaseWord, Qualifier, StorageWord};
use kv_base::{NoMemory, Sequence};
use std::alloc::Global;

/// What the specifiers of a declaration say so far.
#[derive(Drop)]
pub struct Specified {
    pub is_typedef: bool,
    pub is_extern: bool,
    pub is_static: bool,
    pub is_const: bool,
    /// Whether a typedef name of functions with `()` for their parameters is among them.
    pub is_unsaid: bool,
    /// The keywords of a type among them.
    pub words: Sequence<BaseWord>,
    /// The types that the others name; None where a rule is broken.
    pub others: Sequence<Option<CType>>,
}

impl Specified {
    /// No specifiers. It takes no memory.
    pub fn new(alloc: Global) -> Specified
        ensures { (st : Known) → specified st result ≡ spec.no_specifiers st }
    {
        Specified {
            is_typedef: false,
            is_extern: false,
            is_static: false,
            is_const: false,
            is_unsaid: false,
            words: Sequence::new(alloc),
            others: Sequence::new(alloc),
        }
    }

    /// A storage class (6.7.1).
    pub fn store(&mut self, word: StorageWord)
        ensures { (st : Known) → specified st self.new ≡ spec.stored word (specified st self.old) }
    {
        match word {
            StorageWord::Typedef => self.is_typedef = true,
            StorageWord::Extern => self.is_extern = true,
            StorageWord::Static => self.is_static = true,
            StorageWord::Auto | StorageWord::Register => {}
        }
    }

    /// A qualifier (6.7.3). The profile leaves out `volatile`.
    pub fn qualify(
        &mut self,
        st: &mut State,
        qualifier: Qualifier,
        at: usize,
    ) -> Result<(), NoMemory>
        ensures { OnOk result (specified st.new self.new ≡ spec.qualified qualifier at (specified st.old self.old)) }
    {
        match qualifier {
            Qualifier::Const => {
                self.is_const = true;
                Ok(())
            }
            Qualifier::Volatile => st.note(at, 26),
            Qualifier::Restrict => Ok(()),
        }
    }

    /// A keyword of a type (6.7.2).
    pub fn add_word(&mut self, word: BaseWord) -> Result<(), NoMemory>
        ensures { OnOk result (self.new ≡ record self.old { words = self.old.words ++ word ∷ [] }) }
    {
        self.words.push(word)
    }

    /// Another specifier of a type, and what it names.
    pub fn add_other(&mut self, ctype: Option<CType>) -> Result<(), NoMemory>
        ensures { OnOk result (self.new ≡ record self.old { others = self.old.others ++ ctype ∷ [] }) }
    {
        self.others.push(ctype)
    }
}
