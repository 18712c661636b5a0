//! Specifiers (C11 6.7).

ghost use Rattle.std.specs.Prelude.{◌≡◌, ◌≤◌, ◌<◌, ◌+◌, false};
ghost use Rattle.c_tree.specs.Spells as spelled;
ghost use Rattle.c_tree.specs.SpellsText.{kinds_of};
ghost use Rattle.c_tree.specs.declared.expression.Specifier.TheVariants as specifier_node;
ghost use Rattle.c_grammar.specs.Marks.{mark_at};
ghost use Rattle.c_grammar.specs.ReadTypes as spec;
ghost use Rattle.c_grammar.specs.Readers as readers;
ghost use Rattle.c_cursor.specs.Bare.{IsMark};
ghost use Rattle.c_cursor.specs.Reads.{Reads, ReadsAs, specified_of};
ghost use Rattle.c_cursor.specs.Parts.{ReadsPart, lines_at, constants_at};
ghost use Rattle.c_specifiers.specs.Specifiers.{role_of, specific_of, structure, enumeration, at_number, typedef_name, word_specifier, specifier_at, decorated_specifier, further_at};

use c_boxes::keeping;
use c_cursor::{
    Cursor, Fault, Mark, Specified, attributes, begins_type, mark_at, name, refuse, take,
};
use c_tokens::{Token, TokenKind};
use c_tree::{EnumConstant, MemberLine, Specifier, StorageWord};
use kv_base::{Bytes, Copied};
use sqlite_items::Items;
use std::alloc::Global;

/// What a specifier is for the others.
#[derive(Clone, Copy, Drop)]
pub enum Role {
    /// `typedef`
    Defines,
    /// A type specifier.
    Types,
    /// None of these.
    Modifies,
}

impl Role {
    /// Whether a type stands among the specifiers up to this one, by whether one stands before it.
    fn types_now(self, typed: bool) -> bool
        ensures { result ≡ spelled.types_now typed (role_of self) }
    {
        match self {
            Role::Types => true,
            Role::Defines | Role::Modifies => typed,
        }
    }

    /// Whether `typedef` stands among the specifiers with this one, by whether it stands among the others.
    fn defines_now(self, defines: bool) -> bool
        ensures { result ≡ spelled.defines_now (role_of self) defines }
    {
        match self {
            Role::Defines => true,
            Role::Types | Role::Modifies => defines,
        }
    }
}

/// A specifier, and what it is for the others.
#[derive(Drop)]
pub struct Specific {
    pub role: Role,
    pub specifier: Specifier,
}

/// What a storage word says of the declared names (6.7.1).
fn storage_role(word: StorageWord) -> Role
    ensures { role_of result ≡ spelled.storage_role word }
{
    match word {
        StorageWord::Typedef => Role::Defines,
        StorageWord::Extern | StorageWord::Static | StorageWord::Auto | StorageWord::Register => {
            Role::Modifies
        }
    }
}

/// A type specifier.
fn types(specifier: Specifier) -> Specific
    ensures { specific_of result ≡ spec.Plays spelled.Types specifier }
{
    Specific {
        role: Role::Types,
        specifier,
    }
}

/// A specifier that is no type and no storage class.
fn modifies(specifier: Specifier) -> Specific
    ensures { specific_of result ≡ spec.Plays spelled.Modifies specifier }
{
    Specific {
        role: Role::Modifies,
        specifier,
    }
}

/// A word that is a specifier by itself, from it on.
fn single_word(mark: Mark, place: &mut Cursor) -> Result<Specific, Fault>
    requires { IsMark mark → place.old.at < usize.MAX }
    ensures { ReadsAs specific_of (word_specifier mark place.old) result place.new }
{
    let at = place.at();
    match mark {
        Mark::Stores(word) => {
            place.skip();
            Ok(Specific {
                role: storage_role(word),
                specifier: Specifier::Storage { word, at },
            })
        }
        Mark::Functions(word) => {
            place.skip();
            Ok(modifies(Specifier::Function { word, at }))
        }
        Mark::Qualifies(qualifier) => {
            place.skip();
            Ok(modifies(Specifier::Qualified { qualifier, at }))
        }
        Mark::Bases(word) => {
            place.skip();
            Ok(types(Specifier::Base { word, at }))
        }
        Mark::TypeWords(kind) => {
            place.skip();
            Ok(types(Specifier::TypeWord { kind, at }))
        }
        _ => Err(refuse(place)),
    }
}

/// A typedef name (6.7.8), where no type stands before it.
fn named_specifier(
    alloc: Global,
    text: &Bytes,
    typed: bool,
    place: &mut Cursor,
) -> Result<Specific, Fault>
    requires { place.old.at < usize.MAX }
    ensures { ReadsAs specific_of (spec.name_specifier typed place.old text.now) result place.new }
{
    if typed {
        return Err(refuse(place));
    }
    if !place.names_type(text.as_slice()) {
        return Err(refuse(place));
    }
    let at = place.at();
    let name = text.copy(alloc)?;
    place.skip();
    Ok(types(Specifier::TypedefName { name, at }))
}

/// The rules of specifiers, with what reads what stands in the brackets of structs and enumerations.
#[derive(Clone, Copy)]
pub struct Specifiers<'t, L, C> {
    pub alloc: Global,
    pub tokens: &'t [Token],
    /// How many steps may still be taken.
    pub depth: usize,
    /// Reads the lines of a struct in at most a given number of steps.
    pub lines: L,
    /// Reads the constants of an enumeration in at most a given number of steps.
    pub constants: C,
}

impl<'t, L, C> Specifiers<'t, L, C> {
    /// A typedef name, where no type stands before it.
    fn typedef_name(&self, typed: bool, place: &mut Cursor) -> Result<Specific, Fault>
        ensures { ReadsAs specific_of (typedef_name typed place.old (mark_at (kinds_of self.now.tokens.now) place.old)) result place.new }
    {
        match place.kind(self.tokens) {
            Some(TokenKind::Name { text }) => named_specifier(self.alloc, text, typed, place),
            _ => Err(refuse(place)),
        }
    }

    /// Whether a further specifier may begin here, after others among which a type stands or not.
    fn goes_further(&self, typed: bool, place: &Cursor) -> bool
        ensures { result ≡ spec.goes_further (kinds_of self.now.tokens.now) typed place.now }
    {
        if !typed {
            return begins_type(self.tokens, place);
        }
        match mark_at(self.tokens, place) {
            Mark::Name => false,
            _ => begins_type(self.tokens, place),
        }
    }
}

impl<
    't,
    L: Fn(Global, &[Token], usize, &mut Cursor) -> Result<Items<MemberLine>, Fault>,
    C,
> Specifiers<'t, L, C> {
    /// The lines of a struct, up to its `}`.
    fn lines(&self, place: &mut Cursor) -> Result<Items<MemberLine>, Fault>
        requires lines { ReadsPart lines_at self.now.depth (L.pre self.now.lines) (L.post self.now.lines) }
        ensures { Reads (lines_at (kinds_of self.now.tokens.now) self.now.depth place.old) result place.new }
    {
        (self.lines)(self.alloc, self.tokens, self.depth, place)
    }

    /// The lines of a struct in their brackets, from the `{` on; `struct` stands at `at`.
    #[tactic(auto, using(c_cursor::proofs::Skipped::curly_closes_taken, c_cursor::proofs::Skipped::curly_closes_missing))]
    fn struct_body(
        &self,
        tag: Option<Bytes>,
        at: usize,
        place: &mut Cursor,
    ) -> Result<Specific, Fault>
        requires lines { ReadsPart lines_at self.now.depth (L.pre self.now.lines) (L.post self.now.lines) }
        requires here { place.old.at < usize.MAX }
        ensures { let kinds = kinds_of self.now.tokens.now in ReadsAs specific_of (spec.struct_body kinds (lines_at kinds self.now.depth) (at_number at) tag place.old) result place.new }
    {
        place.skip();
        let lines = self.lines(place)?;
        let (lines, _) = keeping(lines, take(self.tokens, Mark::CurlyCloses, place))?;
        Ok(types(Specifier::Struct { tag, lines, at }))
    }

    /// What follows a struct's tag; `struct` stands at `at`.
    fn struct_tagged(&self, tag: Bytes, at: usize, place: &mut Cursor) -> Result<Specific, Fault>
        requires lines { ReadsPart lines_at self.now.depth (L.pre self.now.lines) (L.post self.now.lines) }
        ensures { let kinds = kinds_of self.now.tokens.now in ReadsAs specific_of (spec.struct_tagged kinds (lines_at kinds self.now.depth) (at_number at) tag place.old (mark_at kinds place.old)) result place.new }
    {
        match mark_at(self.tokens, place) {
            Mark::CurlyOpens => self.struct_body(Some(tag), at, place),
            _ => Ok(types(Specifier::StructTag { tag, at })),
        }
    }

    /// What begins with `struct`.
    #[tactic(auto, using(crate::proofs::SpecifierSteps::struct_named))]
    fn structure(&self, place: &mut Cursor) -> Result<Specific, Fault>
        requires lines { ReadsPart lines_at self.now.depth (L.pre self.now.lines) (L.post self.now.lines) }
        requires here { place.old.at < usize.MAX }
        ensures { ReadsAs specific_of (structure (kinds_of self.now.tokens.now) self.now.depth place.old) result place.new }
    {
        let at = place.at();
        place.skip();
        if let Mark::CurlyOpens = mark_at(self.tokens, place) {
            return self.struct_body(None, at, place);
        }
        let tag = name(self.alloc, self.tokens, place)?;
        self.struct_tagged(tag, at, place)
    }
}

impl<
    't,
    L,
    C: Fn(Global, &[Token], usize, &mut Cursor) -> Result<Items<EnumConstant>, Fault>,
> Specifiers<'t, L, C> {
    /// The constants of an enumeration, up to its `}`.
    fn constants(&self, place: &mut Cursor) -> Result<Items<EnumConstant>, Fault>
        requires constants { ReadsPart constants_at self.now.depth (C.pre self.now.constants) (C.post self.now.constants) }
        ensures { Reads (constants_at (kinds_of self.now.tokens.now) self.now.depth place.old) result place.new }
    {
        (self.constants)(self.alloc, self.tokens, self.depth, place)
    }

    /// The constants of an enumeration in their brackets, from the `{` on; `enum` stands at `at`.
    #[tactic(auto, using(c_cursor::proofs::Skipped::curly_closes_taken, c_cursor::proofs::Skipped::curly_closes_missing))]
    fn enum_body(
        &self,
        tag: Option<Bytes>,
        at: usize,
        place: &mut Cursor,
    ) -> Result<Specific, Fault>
        requires constants { ReadsPart constants_at self.now.depth (C.pre self.now.constants) (C.post self.now.constants) }
        requires here { place.old.at < usize.MAX }
        ensures { let kinds = kinds_of self.now.tokens.now in ReadsAs specific_of (spec.enum_body kinds (constants_at kinds self.now.depth) (at_number at) tag place.old) result place.new }
    {
        place.skip();
        let constants = self.constants(place)?;
        let (constants, _) = keeping(constants, take(self.tokens, Mark::CurlyCloses, place))?;
        Ok(types(Specifier::Enum { tag, constants, at }))
    }

    /// What follows an enumeration's tag; `enum` stands at `at`.
    fn enum_tagged(&self, tag: Bytes, at: usize, place: &mut Cursor) -> Result<Specific, Fault>
        requires constants { ReadsPart constants_at self.now.depth (C.pre self.now.constants) (C.post self.now.constants) }
        ensures { let kinds = kinds_of self.now.tokens.now in ReadsAs specific_of (spec.enum_tagged kinds (constants_at kinds self.now.depth) (at_number at) tag place.old (mark_at kinds place.old)) result place.new }
    {
        match mark_at(self.tokens, place) {
            Mark::CurlyOpens => self.enum_body(Some(tag), at, place),
            _ => Ok(types(Specifier::EnumTag { tag, at })),
        }
    }

    /// What begins with `enum`.
    #[tactic(auto, using(crate::proofs::SpecifierSteps::enum_named))]
    fn enumeration(&self, place: &mut Cursor) -> Result<Specific, Fault>
        requires constants { ReadsPart constants_at self.now.depth (C.pre self.now.constants) (C.post self.now.constants) }
        requires here { place.old.at < usize.MAX }
        ensures { ReadsAs specific_of (enumeration (kinds_of self.now.tokens.now) self.now.depth place.old) result place.new }
    {
        let at = place.at();
        place.skip();
        if let Mark::CurlyOpens = mark_at(self.tokens, place) {
            return self.enum_body(None, at, place);
        }
        let tag = name(self.alloc, self.tokens, place)?;
        self.enum_tagged(tag, at, place)
    }
}

impl<
    't,
    L: Fn(Global, &[Token], usize, &mut Cursor) -> Result<Items<MemberLine>, Fault>,
    C: Fn(Global, &[Token], usize, &mut Cursor) -> Result<Items<EnumConstant>, Fault>,
> Specifiers<'t, L, C> {
    /// A specifier after others, among which a type stands or not.
    fn specifier(&self, typed: bool, place: &mut Cursor) -> Result<Specific, Fault>
        requires lines { ReadsPart lines_at self.now.depth (L.pre self.now.lines) (L.post self.now.lines) }
        requires constants { ReadsPart constants_at self.now.depth (C.pre self.now.constants) (C.post self.now.constants) }
        ensures { ReadsAs specific_of (specifier_at (kinds_of self.now.tokens.now) self.now.depth typed place.old) result place.new }
    {
        match mark_at(self.tokens, place) {
            Mark::Structs => self.structure(place),
            Mark::Enums => self.enumeration(place),
            Mark::Name => self.typedef_name(typed, place),
            mark => single_word(mark, place),
        }
    }

    /// A specifier, and what has no meaning after it.
    fn decorated_specifier(
        &self,
        limit: usize,
        typed: bool,
        place: &mut Cursor,
    ) -> Result<Specific, Fault>
        requires lines { ReadsPart lines_at self.now.depth (L.pre self.now.lines) (L.post self.now.lines) }
        requires constants { ReadsPart constants_at self.now.depth (C.pre self.now.constants) (C.post self.now.constants) }
        ensures { ReadsAs specific_of (decorated_specifier (kinds_of self.now.tokens.now) self.now.depth limit typed place.old) result place.new }
    {
        let specific = self.specifier(typed, place)?;
        let behind = attributes(self.alloc, self.tokens, limit, place);
        let (specific, _) = keeping(specific, behind)?;
        Ok(specific)
    }

    /// Specifiers, at least one.
    fn further(&self, limit: usize, place: &mut Cursor) -> Result<Specified, Fault>
        requires lines { ReadsPart lines_at self.now.depth (L.pre self.now.lines) (L.post self.now.lines) }
        requires constants { ReadsPart constants_at self.now.depth (C.pre self.now.constants) (C.post self.now.constants) }
        ensures { ReadsAs specified_of (further_at (kinds_of self.now.tokens.now) self.now.depth limit false place.old) result place.new }
    {
        let mut list = Items::new(self.alloc);
        let mut defines = false;
        let mut typed = false;
        for turn in 0..limit {
            let Specific { role, specifier } = self.decorated_specifier(
                limit - turn - 1,
                typed,
                place,
            )?;
            list.push(specifier)?;
            defines = role.defines_now(defines);
            typed = role.types_now(typed);
            if !self.goes_further(typed, place) {
                return Ok(Specified { list, defines });
            }
        }
        Err(refuse(place))
    }

    /// All specifiers of a declaration (6.7).
    pub fn all_specifiers(&self, place: &mut Cursor) -> Result<Specified, Fault>
        requires lines { ReadsPart lines_at self.now.depth (L.pre self.now.lines) (L.post self.now.lines) }
        requires constants { ReadsPart constants_at self.now.depth (C.pre self.now.constants) (C.post self.now.constants) }
        requires within { self.now.depth < usize.MAX }
        ensures { ReadsAs specified_of (let kinds = kinds_of self.now.tokens.now in let n = self.now.depth in spec.all_specifiers kinds (readers.struct_with kinds (readers.read kinds n) (readers.specifiers kinds n) (readers.perhaps kinds n) n) (readers.enum_with kinds (readers.read kinds n) n) (n + 1) place.old) result place.new }
    {
        let limit = self.depth + 1;
        attributes(self.alloc, self.tokens, limit, place)?;
        self.further(limit, place)
    }
}
