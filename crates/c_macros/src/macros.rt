ghost use Rattle.std.specs.Prelude.{◌≡◌, ◌++◌, ◌<◌, true, length, slice_index, slice_index_or, slice_set, Some, None, IfOk, IfSome, MatchOption, OnOk};
ghost use Rattle.c_macros.specs.Chains.{Becomes, Edge, IsAhead, IsNoWord, IsPlace, name_at, text_at};
ghost use Rattle.c_macros.specs.Circles.{IsTrail, Returns, is_marked};
ghost use Rattle.c_macros.specs.Nexts.{IsChain, IsNext, IsStep};
ghost use Rattle.std.specs.List.{list_any};
ghost use Rattle.c_tokens.specs.Words.{lookup, words};
ghost use Rattle.c_tokens.specs.Headers.{names_of, limits_names, stdbool_names, stddef_names, stdint_names};
ghost use Rattle.c_tokens.specs.Reading.{defined, given, given_or_name, if_included, include_header, included, is_defined, kind_of_name, no_macros, number_kind};
ghost use Rattle.c_scan.specs.Rows.{rows, words_of};
ghost use Rattle.c_macros.specs.HeaderRows.{header_view};
ghost use Rattle.c_scan.specs.Numbers.{number_view};
ghost use Rattle.c_macros.specs.Tables.{IsKnown, OnlyMarks, Tells, macros_view};

use crate::headers::{Header, limits_rows, stdbool_rows, stddef_rows, stdint_rows};
use c_scan::{Number, Row, Words, begins_digit, find, number_of};
use c_tokens::{DataModel, TokenKind};
use indexmap::{IndexMap, IndexSet};
use kv_base::{NoMemory, Sequence};
use std::alloc::Global;

/// What comes next on a chain of replacements.
#[derive(Drop)]
enum Next {
    /// A token, which isn't replaced again.
    Ends(TokenKind),
    /// The definition at this place.
    Goes(usize),
}

/// How a chain of replacements goes on.
#[derive(Drop)]
enum Chain {
    /// It ends at a token.
    Ends(TokenKind),
    /// It goes over these definitions to one that is marked.
    Joins {
        over: IndexSet<usize>,
        at: usize,
    },
    /// It goes over these definitions, and then back to the one at this place of them.
    Circles {
        over: IndexSet<usize>,
        at: usize,
        from: usize,
    },
}

/// The macros that the directives so far define, each with the text that replaces it, and what the
/// included headers give.
#[derive(Drop)]
pub struct Macros {
    pub model: DataModel,
    defined: IndexMap<Vec<u8>, Vec<u8>>,
    /// For the definition at each place, one whose name is reached from its name.
    ahead: Vec<usize>,
    /// For the definition at each place, the one whose name its name becomes, where its chain is known
    /// to come back.
    returns: Vec<Option<usize>>,
    /// For the definition at each place, the number that its text is.
    numbers: Vec<Number>,
    limits: bool,
    stdbool: bool,
    stddef: bool,
    stdint: bool,
    given: Vec<Row>,
}

/// The token for a number that replaces a name.
fn number_kind(number: Number) -> TokenKind
    ensures { result ≡ number_kind (number_view number) }
{
    match number {
        Number::Whole { kind, value } => TokenKind::Constant {
            kind,
            value: i128::from(value),
        },
        Number::TooLarge | Number::Floating | Number::NoConstant => TokenKind::FloatingConstant,
    }
}

/// Puts further rows at the end.
fn append(rows: &mut Vec<Row>, more: Vec<Row>) -> Result<(), NoMemory>
    ensures { OnOk result (rows.new.items ≡ rows.old.items ++ more.items) }
{
    let mut more = more;
    rows.append(&mut more)
}

impl Macros {
    /// No macro, and no header.
    pub fn new(alloc: Global, model: DataModel) -> Macros
        ensures macros { macros_view result ≡ no_macros }
        ensures known { IsKnown result }
        ensures model { result.model ≡ model }
    {
        Macros {
            model,
            defined: IndexMap::new(alloc),
            ahead: Vec::new(alloc),
            returns: Vec::new(alloc),
            numbers: Vec::new(alloc),
            limits: false,
            stdbool: false,
            stddef: false,
            stdint: false,
            given: Vec::new(alloc),
        }
    }

    /// The place of a name's definition.
    fn place_of(&self, name: &[u8]) -> Option<usize>
        ensures { MatchOption result (lookup (macros_view self.now).defined name.now ≡ None) (IsPlace (macros_view self.now).defined name.now) }
    {
        match self.defined.get_full(name) {
            Some((place, _, _)) => Some(place),
            None => None,
        }
    }

    /// The name of the definition at a place.
    fn name_at(&self, place: usize) -> &[u8]
        requires { place < length (macros_view self.now).defined }
        ensures { result.now ≡ name_at (macros_view self.entry.now).defined place }
    {
        match self.defined.get_index(place) {
            Some((name, _)) => name.as_slice(),
            None => unreachable!(),
        }
    }

    /// The text of the definition at a place.
    fn text_at(&self, place: usize) -> &[u8]
        requires { place < length (macros_view self.now).defined }
        ensures { result.now ≡ text_at (macros_view self.entry.now).defined place }
    {
        match self.defined.get_index(place) {
            Some((_, text)) => text.as_slice(),
            None => unreachable!(),
        }
    }

    /// What a name is that no `#define` replaces.
    fn given_or_name(&self, alloc: Global, name: &[u8]) -> Result<TokenKind, NoMemory>
        requires { IsKnown self.now }
        ensures { IfOk result (λ kind. kind ≡ given_or_name self.now.model (macros_view self.now) name.now) }
    {
        match find(alloc, &self.given, name)? {
            Some(kind) => Ok(kind),
            None => Ok(TokenKind::Name {
                text: Sequence::from_slice(alloc, name)?,
            }),
        }
    }

    /// What replaces the name of the definition at a place.
    fn next(&self, alloc: Global, table: &Words, place: usize) -> Result<Next, NoMemory>
        requires table { words_of table.now ≡ words }
        requires known { IsKnown self.now }
        requires place { place < length (macros_view self.now).defined }
        requires no_word { IsNoWord (name_at (macros_view self.now).defined place) }
        ensures { IfOk result (IsStep self.now.model (macros_view self.now) (name_at (macros_view self.now).defined place)) }
    {
        let text = self.text_at(place);
        if begins_digit(text) {
            return Ok(Next::Ends(number_kind(self.numbers[place])));
        }
        if let Some(kind) = table.find(alloc, text)? {
            return Ok(Next::Ends(kind));
        }
        match self.place_of(text) {
            Some(place) => Ok(Next::Goes(place)),
            None => Ok(Next::Ends(self.given_or_name(alloc, text)?)),
        }
    }

    /// Notes that the definition at a place reaches another one.
    fn link(&mut self, at: usize, place: usize)
        requires known { IsKnown self.old }
        requires at { at < length (macros_view self.old).defined }
        requires ahead { IsAhead (macros_view self.old).defined at place }
        ensures macros { macros_view self.new ≡ macros_view self.old }
        ensures known { IsKnown self.new }
        ensures model { self.new.model ≡ self.old.model }
    {
        self.ahead[at] = place;
    }

    /// What comes on the chain after the definition at a place, which is linked further ahead.
    fn advance(&mut self, alloc: Global, table: &Words, at: usize) -> Result<Next, NoMemory>
        requires table { words_of table.now ≡ words }
        requires known { IsKnown self.old }
        requires place { at < length (macros_view self.old).defined }
        requires no_word { IsNoWord (name_at (macros_view self.old).defined at) }
        ensures next { IfOk result (IsNext self.old.model (macros_view self.old) (name_at (macros_view self.old).defined at)) }
        ensures macros { macros_view self.new ≡ macros_view self.old }
        ensures known { IsKnown self.new }
        ensures model { self.new.model ≡ self.old.model }
    {
        let ahead = self.ahead[at];
        if ahead != at {
            let after = self.ahead[ahead];
            self.link(at, after);
            return Ok(Next::Goes(after));
        }
        match self.next(alloc, table, at)? {
            Next::Goes(place) => {
                self.link(at, place);
                Ok(Next::Goes(place))
            }
            Next::Ends(kind) => Ok(Next::Ends(kind)),
        }
    }

    /// What stands at the end of the chain from the definition at a place on, unless it comes back.
    fn end_from(
        &mut self,
        alloc: Global,
        table: &Words,
        first: usize,
    ) -> Result<Option<TokenKind>, NoMemory>
        requires table { words_of table.now ≡ words }
        requires known { IsKnown self.old }
        requires place { first < length (macros_view self.old).defined }
        requires no_word { IsNoWord (name_at (macros_view self.old).defined first) }
        ensures kind { IfOk result (λ found. IfSome found (Becomes self.old.model (macros_view self.old) (name_at (macros_view self.old).defined first))) }
        ensures macros { macros_view self.new ≡ macros_view self.old }
        ensures known { IsKnown self.new }
        ensures model { self.new.model ≡ self.old.model }
    {
        let mut met: IndexSet<usize> = IndexSet::new(alloc);
        let mut at = first;
        for _turn in 0..=self.defined.len() {
            if self.returns[at].is_some() || !met.insert(at)? {
                return Ok(None);
            }
            match self.advance(alloc, table, at)? {
                Next::Goes(place) => at = place,
                Next::Ends(kind) => return Ok(Some(kind)),
            }
        }
        Ok(None)
    }

    /// The chain from the definition at a place on, one replacement after another.
    fn walk(&self, alloc: Global, table: &Words, first: usize) -> Result<Chain, NoMemory>
        requires table { words_of table.now ≡ words }
        requires known { IsKnown self.now }
        requires place { first < length (macros_view self.now).defined }
        requires no_word { IsNoWord (name_at (macros_view self.now).defined first) }
        ensures { IfOk result (IsChain self.now.model (macros_view self.now) self.now.returns.items first) }
    {
        let mut over: IndexSet<usize> = IndexSet::new(alloc);
        let mut at = first;
        'chain: while self.returns[at].is_none() {
            if let Some(from) = over.get_index_of(&at) {
                return Ok(Chain::Circles { over, at, from });
            }
            match self.next(alloc, table, at)? {
                Next::Goes(place) => {
                    over.insert(at)?;
                    at = place;
                }
                Next::Ends(kind) => return Ok(Chain::Ends(kind)),
            }
        }
        Ok(Chain::Joins { over, at })
    }

    /// Notes that the name of the definition at a place becomes that of another one.
    fn note_return(&mut self, place: usize, end: usize)
        requires { place < length self.old.returns.items }
        ensures marks { self.new.returns.items ≡ slice_set self.old.returns.items place (Some end) }
        ensures others { OnlyMarks self.old self.new }
    {
        self.returns[place] = Some(end);
    }

    /// Marks each definition on a circle, which begins at `from` and goes on to `at` again.
    fn mark_circle(&mut self, over: &[usize], at: usize, from: usize)
        requires known { IsKnown self.old }
        requires trail { IsTrail (macros_view self.old).defined over.now at }
        requires within { at < length (macros_view self.old).defined }
        requires no_word { IsNoWord (name_at (macros_view self.old).defined at) }
        requires from { from < length over.now }
        requires begins { slice_index over.now from ≡ at }
        requires returns { Returns (macros_view self.old).defined (name_at (macros_view self.old).defined at) (name_at (macros_view self.old).defined at) }
        ensures macros { macros_view self.new ≡ macros_view self.old }
        ensures known { IsKnown self.new }
        ensures model { self.new.model ≡ self.old.model }
        ensures marked { is_marked self.new.returns.items at ≡ true }
    {
        for k in from..over.len() {
            self.note_return(over[k], over[k]);
        }
    }

    /// Marks a definition as the next one on its chain is marked, unless it is marked already.
    fn mark_lead(&mut self, place: usize, next: usize)
        requires known { IsKnown self.old }
        requires place { place < length (macros_view self.old).defined }
        requires next { next < length (macros_view self.old).defined }
        requires edge { Edge (macros_view self.old).defined (name_at (macros_view self.old).defined place) (name_at (macros_view self.old).defined next) }
        requires marked { is_marked self.old.returns.items next ≡ true }
        ensures macros { macros_view self.new ≡ macros_view self.old }
        ensures known { IsKnown self.new }
        ensures model { self.new.model ≡ self.old.model }
        ensures marked { is_marked self.new.returns.items place ≡ true }
    {
        if self.returns[place].is_some() {
            return;
        }
        match self.returns[next] {
            Some(end) => self.note_return(place, end),
            None => unreachable!(),
        }
    }

    /// Marks each definition that leads to a marked one, as that one is.
    fn mark_leads(&mut self, over: &[usize], at: usize)
        requires known { IsKnown self.old }
        requires trail { IsTrail (macros_view self.old).defined over.now at }
        requires within { at < length (macros_view self.old).defined }
        requires marked { is_marked self.old.returns.items at ≡ true }
        ensures macros { macros_view self.new ≡ macros_view self.old }
        ensures known { IsKnown self.new }
        ensures model { self.new.model ≡ self.old.model }
        ensures marked { is_marked self.new.returns.items (slice_index_or over.now 0 at) ≡ true }
    {
        let mut next = at;
        let mut left = over.len();
        while left > 0 {
            left -= 1;
            self.mark_lead(over[left], next);
            next = over[left];
        }
    }

    /// The name of the definition that a marked one returns to.
    fn name_returned(&self, alloc: Global, place: usize) -> Result<TokenKind, NoMemory>
        requires known { IsKnown self.now }
        requires place { place < length (macros_view self.now).defined }
        requires marked { is_marked self.now.returns.items place ≡ true }
        ensures { IfOk result (λ kind. kind ≡ kind_of_name self.now.model (macros_view self.now) (name_at (macros_view self.now).defined place)) }
    {
        match self.returns[place] {
            Some(end) => Ok(TokenKind::Name {
                text: Sequence::from_slice(alloc, self.name_at(end))?,
            }),
            None => unreachable!(),
        }
    }

    /// What a defined name is whose chain may come back.
    fn returned(
        &mut self,
        alloc: Global,
        table: &Words,
        first: usize,
    ) -> Result<TokenKind, NoMemory>
        requires table { words_of table.now ≡ words }
        requires known { IsKnown self.old }
        requires place { first < length (macros_view self.old).defined }
        requires no_word { IsNoWord (name_at (macros_view self.old).defined first) }
        ensures kind { IfOk result (λ kind. kind ≡ kind_of_name self.old.model (macros_view self.old) (name_at (macros_view self.old).defined first)) }
        ensures macros { macros_view self.new ≡ macros_view self.old }
        ensures known { IsKnown self.new }
        ensures model { self.new.model ≡ self.old.model }
    {
        match self.walk(alloc, table, first)? {
            Chain::Ends(kind) => Ok(kind),
            Chain::Joins { over, at } => {
                self.mark_leads(over.as_slice(), at);
                self.name_returned(alloc, first)
            }
            Chain::Circles { over, at, from } => {
                self.mark_circle(over.as_slice(), at, from);
                self.mark_leads(over.as_slice(), at);
                self.name_returned(alloc, first)
            }
        }
    }

    /// What a name is after all its replacements (C11 6.10.3.4).
    pub fn kind_of_name(
        &mut self,
        alloc: Global,
        table: &Words,
        name: &[u8],
    ) -> Result<TokenKind, NoMemory>
        requires table { words_of table.now ≡ words }
        requires known { IsKnown self.old }
        ensures kind { IfOk result (λ kind. kind ≡ kind_of_name self.old.model (macros_view self.old) name.now) }
        ensures macros { macros_view self.new ≡ macros_view self.old }
        ensures known { IsKnown self.new }
        ensures model { self.new.model ≡ self.old.model }
    {
        if let Some(kind) = table.find(alloc, name)? {
            return Ok(kind);
        }
        let Some(first) = self.place_of(name) else {
            return self.given_or_name(alloc, name);
        };
        match self.end_from(alloc, table, first)? {
            Some(kind) => Ok(kind),
            None => self.returned(alloc, table, first),
        }
    }

    /// The names of a header.
    fn rows_of(&self, alloc: Global, header: Header) -> Result<Vec<Row>, NoMemory>
        ensures { IfOk result (λ made. rows made.items ≡ names_of self.now.model (header_view header)) }
    {
        match header {
            Header::Assert => Ok(Vec::new(alloc)),
            Header::Limits => limits_rows(alloc, self.model),
            Header::Stdbool => stdbool_rows(alloc),
            Header::Stddef => stddef_rows(alloc, self.model),
            Header::Stdint => stdint_rows(alloc, self.model),
        }
    }

    /// Whether one of these names is defined.
    fn defines_any(&self, table: &[Row]) -> bool
        ensures { result ≡ list_any (λ row. is_defined (macros_view self.now) row.0) (rows table.now) }
    {
        for row in table {
            if self.place_of(row.text).is_some() {
                return true;
            }
        }
        false
    }

    /// The names of `limits.h`, if it is included.
    fn limits_given(&self, alloc: Global) -> Result<Vec<Row>, NoMemory>
        ensures { IfOk result (λ made. rows made.items ≡ if_included self.now.limits (limits_names self.now.model)) }
    {
        if self.limits {
            return limits_rows(alloc, self.model);
        }
        Ok(Vec::new(alloc))
    }

    /// The names of `stdbool.h`, if it is included.
    fn stdbool_given(&self, alloc: Global) -> Result<Vec<Row>, NoMemory>
        ensures { IfOk result (λ made. rows made.items ≡ if_included self.now.stdbool stdbool_names) }
    {
        if self.stdbool {
            return stdbool_rows(alloc);
        }
        Ok(Vec::new(alloc))
    }

    /// The names of `stddef.h`, if it is included.
    fn stddef_given(&self, alloc: Global) -> Result<Vec<Row>, NoMemory>
        ensures { IfOk result (λ made. rows made.items ≡ if_included self.now.stddef (stddef_names self.now.model)) }
    {
        if self.stddef {
            return stddef_rows(alloc, self.model);
        }
        Ok(Vec::new(alloc))
    }

    /// The names of `stdint.h`, if it is included.
    fn stdint_given(&self, alloc: Global) -> Result<Vec<Row>, NoMemory>
        ensures { IfOk result (λ made. rows made.items ≡ if_included self.now.stdint (stdint_names self.now.model)) }
    {
        if self.stdint {
            return stdint_rows(alloc, self.model);
        }
        Ok(Vec::new(alloc))
    }

    /// The names that the included headers give.
    fn given_rows(&self, alloc: Global) -> Result<Vec<Row>, NoMemory>
        ensures { IfOk result (λ made. rows made.items ≡ given self.now.model (macros_view self.now)) }
    {
        let mut made = self.limits_given(alloc)?;
        append(&mut made, self.stdbool_given(alloc)?)?;
        append(&mut made, self.stddef_given(alloc)?)?;
        append(&mut made, self.stdint_given(alloc)?)?;
        Ok(made)
    }

    /// Notes that a header is included.
    fn mark(&mut self, header: Header)
        ensures macros { macros_view self.new ≡ include_header (macros_view self.old) (header_view header) }
        ensures ahead { self.new.ahead ≡ self.old.ahead }
        ensures returns { self.new.returns ≡ self.old.returns }
        ensures numbers { self.new.numbers ≡ self.old.numbers }
        ensures model { self.new.model ≡ self.old.model }
    {
        match header {
            Header::Assert => {}
            Header::Limits => self.limits = true,
            Header::Stdbool => self.stdbool = true,
            Header::Stddef => self.stddef = true,
            Header::Stdint => self.stdint = true,
        }
    }

    /// Includes a header, if none of its names is defined.
    #[tactic(auto, unfolding(c_tokens::specs::Reading::included))]
    pub fn include(&mut self, alloc: Global, header: Header) -> Result<bool, NoMemory>
        requires { IsKnown self.old }
        ensures told { IfOk result (λ taken. Tells taken (included self.old.model (macros_view self.old) (header_view header)) (macros_view self.new)) }
        ensures known { OnOk result (IsKnown self.new) }
        ensures model { self.new.model ≡ self.old.model }
    {
        let table = self.rows_of(alloc, header)?;
        if self.defines_any(&table) {
            return Ok(false);
        }
        self.mark(header);
        self.given = self.given_rows(alloc)?;
        Ok(true)
    }

    /// Defines a name, if no header gives it and no other text replaces it.
    #[tactic(auto, unfolding(c_tokens::specs::Reading::defined))]
    pub fn define(&mut self, alloc: Global, name: &[u8], text: &[u8]) -> Result<bool, NoMemory>
        requires { IsKnown self.old }
        ensures told { IfOk result (λ taken. Tells taken (defined self.old.model (macros_view self.old) name.now text.now) (macros_view self.new)) }
        ensures known { OnOk result (IsKnown self.new) }
        ensures model { self.new.model ≡ self.old.model }
    {
        if find(alloc, &self.given, name)?.is_some() {
            return Ok(false);
        }
        if let Some(place) = self.place_of(name) {
            return Ok(self.text_at(place) == text);
        }
        let key = Vec::from_slice(alloc, name)?;
        let value = Vec::from_slice(alloc, text)?;
        let place = self.defined.len();
        let number = number_of(self.model, text);
        self.defined.insert(key, value)?;
        self.ahead.push(place)?;
        self.returns.push(None)?;
        self.numbers.push(number)?;
        Ok(true)
    }
}
