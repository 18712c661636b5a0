//! Declarators and parameters (C11 6.7.6).

ghost use Rattle.std.specs.Prelude.{◌≡◌, ◌<◌};
ghost use Rattle.c_tree.specs.Spells as spelled;
ghost use Rattle.c_tree.specs.SpellsText.{kinds_of};
ghost use Rattle.c_grammar.specs.Marks as sign;
ghost use Rattle.c_grammar.specs.Marks.{mark_at};
ghost use Rattle.c_grammar.specs.ReadTypes as spec;
ghost use Rattle.c_grammar.specs.Readers as readers;
ghost use Rattle.c_cursor.specs.Reads.{Reads, ReadsAs, specified_of, titled_of, perhaps_of};
ghost use Rattle.c_cursor.specs.Parts.{ReadsExpressions, ReadsPartAs};
ghost use Rattle.c_declarators.specs.Declarators.{parameters_of, parameter_at, parameters_at, array_suffix, function_parameters, function_suffix, suffixes_at, titled_at, inner_declarator, declared_name, perhaps_at};

use crate::shapes;
use crate::sizes::closed_size;
use c_boxes::keeping;
use c_cursor::{
    Cursor, Fault, Mark, Perhaps, Specified, Titled, attributes, mark_at, may_qualify_parameter,
    name, qualifiers, refuse, take,
};
use c_tokens::Token;
use c_tree::{Declarator, Expression, Parameter, Qualifier, Specifier};
use kv_base::{Copied, Sequence, Stack};
use sqlite_items::Items;
use std::alloc::Global;

/// Parameters (6.7.6.3).
#[derive(Drop)]
pub struct Parameters {
    pub list: Items<Parameter>,
    /// The number of the `...` that ends them.
    pub variadic: Option<usize>,
}

/// A pointer to what was read.
fn pointed(
    alloc: Global,
    qualifiers: Sequence<Qualifier>,
    at: usize,
    inner: Perhaps,
    place: &Cursor,
) -> Result<Perhaps, Fault>
    ensures { ReadsAs perhaps_of (spec.pointed qualifiers at (perhaps_of inner) place.now) result place.now }
{
    match inner {
        Perhaps::With { titled } => {
            let titled = shapes::pointer(alloc, qualifiers, at, titled)?;
            Ok(Perhaps::With { titled })
        }
        Perhaps::Without { inner } => {
            if !may_qualify_parameter(qualifiers.as_slice()) {
                return Err(refuse(place));
            }
            let inner = shapes::pointer_to(alloc, qualifiers, inner, at)?;
            Ok(Perhaps::Without { inner })
        }
    }
}

/// The rules of declarators, with what reads the expressions, the specifiers and the declarators inside.
#[derive(Clone, Copy)]
pub struct Declarators<'t, R, S, P> {
    pub alloc: Global,
    pub tokens: &'t [Token],
    /// How many steps may still be taken.
    pub depth: usize,
    /// Reads an expression of a level or above in at most a given number of steps.
    pub read: R,
    /// Reads specifiers in at most a given number of steps.
    pub specifiers: S,
    /// Reads a declarator, or what stands for one in a parameter, in at most a given number of steps.
    pub perhaps: P,
}

impl<'t, R, S, P> Declarators<'t, R, S, P> {
    /// A parameter with a name, whose specifiers and declarator were read. The name is declared from here on.
    fn declared_parameter(
        &self,
        specifiers: Items<Specifier>,
        titled: Titled,
        place: &mut Cursor,
    ) -> Result<Parameter, Fault>
        ensures { let kinds = kinds_of self.now.tokens.now in Reads (spec.parameter_after (spec.attributes kinds self.now.depth) specifiers (spec.With (titled_of titled)) place.old) result place.new }
    {
        let behind = attributes(self.alloc, self.tokens, self.depth, place);
        let ((specifiers, titled), _) = keeping((specifiers, titled), behind)?;
        let Titled { name, inner, .. } = titled;
        let declared = place.declare(name, false);
        let ((specifiers, declarator), _) = keeping((specifiers, inner), declared)?;
        Ok(Parameter {
            specifiers,
            declarator,
        })
    }

    /// A parameter whose specifiers and declarator were read. Its name is declared from here on.
    fn parameter_after(
        &self,
        specifiers: Items<Specifier>,
        perhaps: Perhaps,
        place: &mut Cursor,
    ) -> Result<Parameter, Fault>
        ensures { let kinds = kinds_of self.now.tokens.now in Reads (spec.parameter_after (spec.attributes kinds self.now.depth) specifiers (perhaps_of perhaps) place.old) result place.new }
    {
        match perhaps {
            Perhaps::With { titled } => self.declared_parameter(specifiers, titled, place),
            Perhaps::Without { inner } => Ok(Parameter {
                specifiers,
                declarator: inner,
            }),
        }
    }

    /// A declared name.
    #[tactic(auto, using(crate::proofs::DeclaratorSteps::declared_name_read))]
    fn declared_name(&self, place: &mut Cursor) -> Result<Titled, Fault>
        ensures { ReadsAs titled_of (declared_name place.old (mark_at (kinds_of self.now.tokens.now) place.old)) result place.new }
    {
        let at = place.at();
        let name = name(self.alloc, self.tokens, place)?;
        Ok(Titled {
            name: name.copy(self.alloc)?,
            parameters: None,
            inner: Declarator::Name { name, at },
        })
    }
}

impl<
    't,
    R: Fn(Global, &[Token], usize, u8, &mut Cursor) -> Result<Expression, Fault>,
    S,
    P,
> Declarators<'t, R, S, P> {
    /// `[]` or `[size]` after a declarator (6.7.6.2), from the `[` on.
    #[tactic(auto, using(crate::proofs::DeclaratorSteps::array_open, crate::proofs::DeclaratorSteps::array_refused))]
    fn array_suffix(&self, titled: Titled, place: &mut Cursor) -> Result<Titled, Fault>
        requires expressions { ReadsExpressions self.now.depth (R.pre self.now.read) (R.post self.now.read) }
        requires here { place.old.at < usize.MAX }
        ensures { ReadsAs titled_of (array_suffix (kinds_of self.now.tokens.now) self.now.depth (titled_of titled) place.old) result place.new }
    {
        let at = place.at();
        place.skip();
        let Mark::SquareCloses = mark_at(self.tokens, place) else {
            let size = closed_size(self.alloc, self.tokens, self.depth, &self.read, place);
            let (titled, size) = keeping(titled, size)?;
            return Ok(shapes::array(self.alloc, titled, size, at)?);
        };
        place.skip();
        Ok(shapes::open_array(self.alloc, titled, at)?)
    }
}

impl<'t, R, S, P: Fn(Global, &[Token], usize, &mut Cursor) -> Result<Perhaps, Fault>> Declarators<
    't,
    R,
    S,
    P,
> {
    /// A declarator, or what stands for one in a parameter.
    fn perhaps(&self, place: &mut Cursor) -> Result<Perhaps, Fault>
        requires declares { ReadsPartAs perhaps_of readers.perhaps self.now.depth (P.pre self.now.perhaps) (P.post self.now.perhaps) }
        ensures { ReadsAs perhaps_of (readers.perhaps (kinds_of self.now.tokens.now) self.now.depth place.old) result place.new }
    {
        (self.perhaps)(self.alloc, self.tokens, self.depth, place)
    }

    /// A declarator with a name, and what has no meaning after it.
    pub fn named_declarator(&self, place: &mut Cursor) -> Result<Titled, Fault>
        requires declares { ReadsPartAs perhaps_of readers.perhaps self.now.depth (P.pre self.now.perhaps) (P.post self.now.perhaps) }
        ensures { ReadsAs titled_of (readers.declarator (kinds_of self.now.tokens.now) self.now.depth place.old) result place.new }
    {
        match self.perhaps(place)? {
            Perhaps::With { titled } => {
                let behind = attributes(self.alloc, self.tokens, self.depth, place);
                let (titled, _) = keeping(titled, behind)?;
                Ok(titled)
            }
            Perhaps::Without { .. } => Err(refuse(place)),
        }
    }

    /// A declarator with a name in round brackets, from the `(` on.
    #[tactic(auto, using(c_cursor::proofs::Skipped::closes_taken, c_cursor::proofs::Skipped::closes_missing))]
    fn inner_declarator(&self, place: &mut Cursor) -> Result<Titled, Fault>
        requires declares { ReadsPartAs perhaps_of readers.perhaps self.now.depth (P.pre self.now.perhaps) (P.post self.now.perhaps) }
        requires here { place.old.at < usize.MAX }
        ensures { ReadsAs titled_of (inner_declarator (kinds_of self.now.tokens.now) self.now.depth place.old) result place.new }
    {
        place.skip();
        let titled = self.named_declarator(place)?;
        let (titled, _) = keeping(titled, take(self.tokens, Mark::RoundCloses, place))?;
        Ok(titled)
    }

    /// `* qualifiers` and what they point to, from the `*` on.
    fn pointer(&self, place: &mut Cursor) -> Result<Perhaps, Fault>
        requires declares { ReadsPartAs perhaps_of readers.perhaps self.now.depth (P.pre self.now.perhaps) (P.post self.now.perhaps) }
        requires here { place.old.at < usize.MAX }
        ensures { ReadsAs perhaps_of (perhaps_at (kinds_of self.now.tokens.now) self.now.depth place.old sign.Star) result place.new }
    {
        let at = place.at();
        place.skip();
        let list = qualifiers(self.alloc, self.tokens, self.depth, place)?;
        let inner = self.perhaps(place)?;
        pointed(self.alloc, list, at, inner, place)
    }
}

impl<'t, R, S: Fn(Global, &[Token], usize, &mut Cursor) -> Result<Specified, Fault>, P> Declarators<
    't,
    R,
    S,
    P,
> {
    /// Specifiers.
    fn specifiers(&self, place: &mut Cursor) -> Result<Specified, Fault>
        requires specifies { ReadsPartAs specified_of readers.specifiers self.now.depth (S.pre self.now.specifiers) (S.post self.now.specifiers) }
        ensures { ReadsAs specified_of (readers.specifiers (kinds_of self.now.tokens.now) self.now.depth place.old) result place.new }
    {
        (self.specifiers)(self.alloc, self.tokens, self.depth, place)
    }
}

impl<
    't,
    R,
    S: Fn(Global, &[Token], usize, &mut Cursor) -> Result<Specified, Fault>,
    P: Fn(Global, &[Token], usize, &mut Cursor) -> Result<Perhaps, Fault>,
> Declarators<'t, R, S, P> {
    /// A parameter (6.7.6.3).
    fn parameter(&self, place: &mut Cursor) -> Result<Parameter, Fault>
        requires specifies { ReadsPartAs specified_of readers.specifiers self.now.depth (S.pre self.now.specifiers) (S.post self.now.specifiers) }
        requires declares { ReadsPartAs perhaps_of readers.perhaps self.now.depth (P.pre self.now.perhaps) (P.post self.now.perhaps) }
        ensures { Reads (parameter_at (kinds_of self.now.tokens.now) self.now.depth place.old) result place.new }
    {
        let specified = self.specifiers(place)?;
        let (specified, perhaps) = keeping(specified, self.perhaps(place))?;
        self.parameter_after(specified.list, perhaps, place)
    }

    /// Parameters, up to the `)` after them.
    #[tactic(auto, using(crate::proofs::ParameterSteps::parameters_refused, crate::proofs::ParameterSteps::parameters_none, crate::proofs::ParameterSteps::parameters_next))]
    fn parameters(&self, place: &mut Cursor) -> Result<Parameters, Fault>
        requires specifies { ReadsPartAs specified_of readers.specifiers self.now.depth (S.pre self.now.specifiers) (S.post self.now.specifiers) }
        requires declares { ReadsPartAs perhaps_of readers.perhaps self.now.depth (P.pre self.now.perhaps) (P.post self.now.perhaps) }
        ensures { ReadsAs parameters_of (parameters_at (kinds_of self.now.tokens.now) self.now.depth place.old) result place.new }
    {
        let mut list = Items::new(self.alloc);
        for _turn in 0..self.depth {
            let parameter = self.parameter(place)?;
            list.push(parameter)?;
            let Mark::Comma = mark_at(self.tokens, place) else {
                return Ok(Parameters {
                    list,
                    variadic: None,
                });
            };
            place.skip();
            if let Mark::Ellipsis = mark_at(self.tokens, place) {
                let at = place.at();
                place.skip();
                return Ok(Parameters {
                    list,
                    variadic: Some(at),
                });
            }
        }
        Err(refuse(place))
    }

    /// `parameters)` after the `(` of a function declarator, which stands at `at`. The parameters are a block of
    /// their own.
    #[tactic(auto, using(c_cursor::proofs::Skipped::closes_taken, c_cursor::proofs::Skipped::closes_missing))]
    fn function_parameters(
        &self,
        titled: Titled,
        at: usize,
        place: &mut Cursor,
    ) -> Result<Titled, Fault>
        requires specifies { ReadsPartAs specified_of readers.specifiers self.now.depth (S.pre self.now.specifiers) (S.post self.now.specifiers) }
        requires declares { ReadsPartAs perhaps_of readers.perhaps self.now.depth (P.pre self.now.perhaps) (P.post self.now.perhaps) }
        ensures { ReadsAs titled_of (function_parameters (kinds_of self.now.tokens.now) self.now.depth (titled_of titled) at place.old) result place.new }
    {
        let (titled, _) = keeping(titled, place.enter())?;
        let (titled, taken) = keeping(titled, self.parameters(place))?;
        let (parts, _) = keeping((titled, taken), take(self.tokens, Mark::RoundCloses, place))?;
        let (titled, taken) = parts;
        Ok(shapes::function(self.alloc, titled, taken, place.leave(), at)?)
    }

    /// `()` or `(parameters)` after a declarator (6.7.6.3), from the `(` on.
    #[tactic(auto, using(crate::proofs::DeclaratorSteps::function_empty))]
    fn function_suffix(&self, titled: Titled, place: &mut Cursor) -> Result<Titled, Fault>
        requires specifies { ReadsPartAs specified_of readers.specifiers self.now.depth (S.pre self.now.specifiers) (S.post self.now.specifiers) }
        requires declares { ReadsPartAs perhaps_of readers.perhaps self.now.depth (P.pre self.now.perhaps) (P.post self.now.perhaps) }
        requires here { place.old.at < usize.MAX }
        ensures { ReadsAs titled_of (function_suffix (kinds_of self.now.tokens.now) self.now.depth (titled_of titled) place.old) result place.new }
    {
        let at = place.at();
        place.skip();
        let Mark::RoundCloses = mark_at(self.tokens, place) else {
            return self.function_parameters(titled, at, place);
        };
        place.skip();
        let taken = Parameters {
            list: Items::new(self.alloc),
            variadic: None,
        };
        Ok(shapes::function(self.alloc, titled, taken, Stack::new(self.alloc), at)?)
    }
}

impl<
    't,
    R: Fn(Global, &[Token], usize, u8, &mut Cursor) -> Result<Expression, Fault>,
    S: Fn(Global, &[Token], usize, &mut Cursor) -> Result<Specified, Fault>,
    P: Fn(Global, &[Token], usize, &mut Cursor) -> Result<Perhaps, Fault>,
> Declarators<'t, R, S, P> {
    /// `[]` or `[size]`, as one node more.
    fn grown_array(&self, titled: Titled, place: &mut Cursor) -> Result<Titled, Fault>
        requires expressions { ReadsExpressions self.now.depth (R.pre self.now.read) (R.post self.now.read) }
        requires here { place.old.at < usize.MAX }
        ensures { ReadsAs titled_of (array_suffix (kinds_of self.now.tokens.now) self.now.depth (titled_of titled) place.old) result place.new }
    {
        let whole = self.array_suffix(titled, place)?;
        Ok(place.grow(whole)?)
    }

    /// `()` or `(parameters)`, as one node more.
    fn grown_function(&self, titled: Titled, place: &mut Cursor) -> Result<Titled, Fault>
        requires specifies { ReadsPartAs specified_of readers.specifiers self.now.depth (S.pre self.now.specifiers) (S.post self.now.specifiers) }
        requires declares { ReadsPartAs perhaps_of readers.perhaps self.now.depth (P.pre self.now.perhaps) (P.post self.now.perhaps) }
        requires here { place.old.at < usize.MAX }
        ensures { ReadsAs titled_of (function_suffix (kinds_of self.now.tokens.now) self.now.depth (titled_of titled) place.old) result place.new }
    {
        let whole = self.function_suffix(titled, place)?;
        Ok(place.grow(whole)?)
    }

    /// What follows a direct declarator, as much as there is.
    #[tactic(auto, using(crate::proofs::DeclaratorSteps::suffixes_no_array, crate::proofs::DeclaratorSteps::suffixes_no_function, crate::proofs::DeclaratorSteps::suffixes_end, crate::proofs::DeclaratorSteps::suffixes_none))]
    fn with_suffixes(&self, titled: Titled, place: &mut Cursor) -> Result<Titled, Fault>
        requires expressions { ReadsExpressions self.now.depth (R.pre self.now.read) (R.post self.now.read) }
        requires specifies { ReadsPartAs specified_of readers.specifiers self.now.depth (S.pre self.now.specifiers) (S.post self.now.specifiers) }
        requires declares { ReadsPartAs perhaps_of readers.perhaps self.now.depth (P.pre self.now.perhaps) (P.post self.now.perhaps) }
        ensures { ReadsAs titled_of (suffixes_at (kinds_of self.now.tokens.now) self.now.depth (titled_of titled) place.old) result place.new }
    {
        let mut whole = titled;
        for _turn in 0..self.depth {
            match mark_at(self.tokens, place) {
                Mark::SquareOpens => whole = self.grown_array(whole, place)?,
                Mark::RoundOpens => whole = self.grown_function(whole, place)?,
                _ => return Ok(whole),
            }
        }
        Err(refuse(place))
    }

    /// The declarator that begins with this direct declarator.
    fn titled(&self, direct: Titled, place: &mut Cursor) -> Result<Perhaps, Fault>
        requires expressions { ReadsExpressions self.now.depth (R.pre self.now.read) (R.post self.now.read) }
        requires specifies { ReadsPartAs specified_of readers.specifiers self.now.depth (S.pre self.now.specifiers) (S.post self.now.specifiers) }
        requires declares { ReadsPartAs perhaps_of readers.perhaps self.now.depth (P.pre self.now.perhaps) (P.post self.now.perhaps) }
        ensures { ReadsAs perhaps_of (titled_at (kinds_of self.now.tokens.now) self.now.depth (titled_of direct) place.old) result place.new }
    {
        let titled = self.with_suffixes(direct, place)?;
        Ok(Perhaps::With { titled })
    }

    /// A declarator, or what stands for one in a parameter.
    #[tactic(auto, using(crate::proofs::DeclaratorSteps::perhaps_pointer, crate::proofs::DeclaratorSteps::perhaps_name, crate::proofs::DeclaratorSteps::perhaps_no_name, crate::proofs::DeclaratorSteps::perhaps_brackets, crate::proofs::DeclaratorSteps::perhaps_no_brackets))]
    pub fn declarator(&self, place: &mut Cursor) -> Result<Perhaps, Fault>
        requires expressions { ReadsExpressions self.now.depth (R.pre self.now.read) (R.post self.now.read) }
        requires specifies { ReadsPartAs specified_of readers.specifiers self.now.depth (S.pre self.now.specifiers) (S.post self.now.specifiers) }
        requires declares { ReadsPartAs perhaps_of readers.perhaps self.now.depth (P.pre self.now.perhaps) (P.post self.now.perhaps) }
        ensures { ReadsAs perhaps_of (let kinds = kinds_of self.now.tokens.now in let n = self.now.depth in spec.perhaps_with kinds (readers.read kinds n) (readers.specifiers kinds n) (readers.perhaps kinds n) n place.old (mark_at kinds place.old)) result place.new }
    {
        match mark_at(self.tokens, place) {
            Mark::Star => self.pointer(place),
            Mark::Name => {
                let direct = self.declared_name(place)?;
                self.titled(direct, place)
            }
            Mark::RoundOpens => {
                let direct = self.inner_declarator(place)?;
                self.titled(direct, place)
            }
            _ => Ok(Perhaps::Without {
                inner: Declarator::Unnamed { at: place.at() },
            }),
        }
    }
}
