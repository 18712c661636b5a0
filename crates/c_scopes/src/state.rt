//! What is known at a place in a text.

ghost use Rattle.std.specs.Prelude.{◌≡◌, ◌<◌, ◌||◌, Some, length, IfOk, OnOk};
ghost use Rattle.std.specs.Option.{option_copied};
ghost use Rattle.c_kinds.specs.Layouts.{has_const, member_in, members_of};
ghost use Rattle.c_kinds.specs.Types.{signature_number};
ghost use Rattle.c_rules.specs.Calls.{is_some};
ghost use Rattle.c_rules.specs.Scopes as spec;
ghost use Rattle.c_rules.specs.Texts as text;
ghost use Rattle.c_rules.specs.Declarations as declaration;
ghost use Rattle.c_rules.specs.Tags as tags;
ghost use Rattle.c_rules.specs.Declarators as declarator;
ghost use Rattle.c_scopes.specs.Tables.{cells_after};

use crate::name_table::NameTable;
use crate::{BlockEntries, NameSet, NumberSet, Scopes};
use c_arithmetic::{cell_count, has_const};
use c_kinds::{CType, Member, Signature, Struct};
use c_rules::{Declares, Function, Meaning, Names, Object, Pair, Pairs, ScopeEntry};
use c_tokens::DataModel;
use kv_base::{Bytes, Copied, NoMemory};
use std::alloc::Global;
use std::marker::Model;

/// The names and tags that a block declares.
#[derive(Drop)]
pub struct Block {
    ordinary: BlockEntries,
    tags: BlockEntries,
}

impl Model for Block {
    ghost use Rattle.c_rules.specs.Scopes as spec;

    ghost Value = { spec.Block };

    ghost view = { λ block. record { ordinary = block.ordinary; tags = block.tags } };
}

/// What is known at a place in a text: what names stand for so far, what is declared there, and in which function it is.
#[derive(Drop)]
pub struct State {
    alloc: Global,
    names: NameTable,
    ordinary: Scopes,
    tags: Scopes,
    linked: Scopes,
    begun: NumberSet,
    defined: NameSet,
    defines: NameSet,
    function: Option<usize>,
    labels: NameSet,
    is_unevaluated: bool,
    reached: usize,
    model: DataModel,
}

impl Model for State {
    ghost use Rattle.c_rules.specs.Scopes as spec;

    ghost Value = { spec.State };

    ghost view = { λ state. record {
      names = state.names;
      ordinary = state.ordinary;
      tags = state.tags;
      linked = state.linked;
      begun = state.begun;
      defined = state.defined;
      defines = state.defines;
      function = state.function;
      labels = state.labels;
      is_unevaluated = state.is_unevaluated;
      reached = state.reached;
      model = state.model;
    } };
}

impl State {
    /// At the beginning of a text whose file defines these objects. It takes no memory.
    pub fn new(alloc: Global, model: DataModel, defined: NameSet) -> State
        ensures { result ≡ text.beginning model defined }
    {
        State {
            alloc,
            names: NameTable::new(alloc),
            ordinary: Scopes::new(alloc),
            tags: Scopes::new(alloc),
            linked: Scopes::new(alloc),
            begun: NumberSet::new(alloc),
            defined,
            defines: NameSet::new(alloc),
            function: None,
            labels: NameSet::new(alloc),
            is_unevaluated: false,
            reached: 0,
            model,
        }
    }

    /// What its lists are allocated by.
    pub fn alloc(&self) -> Global {
        self.alloc
    }

    /// What the names stand for so far.
    pub fn names(&self) -> &Names
        ensures { result.now ≡ self.now.names }
    {
        self.names.names()
    }

    /// What the names stand for at the end of a text.
    pub fn into_names(self) -> Names
        ensures { result ≡ self.names }
    {
        let State { names, .. } = self;
        names.into_names()
    }

    /// The names that the file has defined as objects (6.9.2).
    pub fn into_defines(self) -> NameSet
        ensures { result ≡ self.defines }
    {
        let State { defines, .. } = self;
        defines
    }

    pub fn model(&self) -> DataModel
        ensures { result ≡ self.now.model }
    {
        self.model
    }

    /// The last name, constant or operator after an operand so far.
    pub fn reached(&self) -> usize
        ensures { result ≡ self.now.reached }
    {
        self.reached
    }

    /// The function in whose definition the place is.
    pub fn function(&self) -> Option<usize>
        ensures { result ≡ self.now.function }
    {
        self.function
    }

    /// Whether the place is under `sizeof`, which evaluates nothing (C11 6.5.3.4p2).
    pub fn is_unevaluated(&self) -> bool
        ensures { result ≡ self.now.is_unevaluated }
    {
        self.is_unevaluated
    }

    /// The newest declaration of a name (6.2.1p4).
    pub fn find(&self, name: &[u8]) -> Option<&ScopeEntry>
        ensures { option_copied result ≡ spec.find self.now.ordinary name.now }
    {
        self.ordinary.find(name)
    }

    /// The declaration of a name in the innermost block.
    pub fn find_here(&self, name: &[u8]) -> Option<&ScopeEntry>
        ensures { option_copied result ≡ spec.find_here self.now.ordinary name.now }
    {
        self.ordinary.find_here(name)
    }

    /// The newest declaration of a tag (6.2.3).
    pub fn find_tag(&self, tag: &[u8]) -> Option<&ScopeEntry>
        ensures { option_copied result ≡ spec.find self.now.tags tag.now }
    {
        self.tags.find(tag)
    }

    /// The declaration of a tag in the innermost block.
    pub fn find_tag_here(&self, tag: &[u8]) -> Option<&ScopeEntry>
        ensures { option_copied result ≡ spec.find_here self.now.tags tag.now }
    {
        self.tags.find_here(tag)
    }

    /// What has linkage by this name, in the whole text so far (6.2.2).
    pub fn find_linked(&self, name: &[u8]) -> Option<&ScopeEntry>
        ensures { option_copied result ≡ spec.find self.now.linked name.now }
    {
        self.linked.find(name)
    }

    /// Whether the file defines an object of this name anywhere (6.9.2).
    pub fn is_defined(&self, name: &[u8]) -> bool
        ensures { result ≡ spec.is_among name.now self.now.defined }
    {
        self.defined.contains(name)
    }

    /// Whether no block stands around.
    pub fn is_at_file(&self) -> bool
        ensures { result ≡ spec.is_at_file self.now }
    {
        self.ordinary.depth() == 0
    }
}

// ---- blocks (6.2.1)
impl State {
    /// A block begins.
    pub fn enter(&mut self) -> Result<(), NoMemory>
        ensures { OnOk result (self.new ≡ spec.enter self.old) }
    {
        self.ordinary.enter()?;
        self.tags.enter()
    }

    /// A block begins, with names and tags that are declared in it.
    pub fn enter_with(&mut self, block: Block) -> Result<(), NoMemory>
        ensures { OnOk result (self.new ≡ spec.enter_with block self.old) }
    {
        let Block { ordinary, tags } = block;
        self.ordinary.enter_with(ordinary)?;
        self.tags.enter_with(tags)
    }

    /// The innermost block ends.
    pub fn leave(&mut self)
        ensures { self.new ≡ spec.leave self.old }
    {
        self.ordinary.leave();
        self.tags.leave();
    }

    /// The innermost block ends, and what it declares is handed out.
    pub fn take_block(&mut self) -> Result<Block, NoMemory>
        ensures left { OnOk result (self.new ≡ spec.leave self.old) }
        ensures block { IfOk result (λ block. block ≡ spec.block_of self.old) }
    {
        let alloc = self.alloc;
        let ordinary = self.ordinary.take_block(alloc)?;
        let tags = self.tags.take_block(alloc)?;
        Ok(Block { ordinary, tags })
    }
}

// ---- broken rules
impl State {
    /// Rules are broken.
    pub fn note_all(&mut self, pairs: Pairs) -> Result<(), NoMemory>
        ensures { OnOk result (self.new ≡ spec.note_all pairs self.old) }
    {
        self.names.note_all(pairs)
    }

    /// A rule is broken at a token.
    pub fn note(&mut self, at: usize, rule: u8) -> Result<(), NoMemory>
        ensures { OnOk result (self.new ≡ spec.note at rule self.old) }
    {
        self.names.note(Pair { at, rule })
    }

    /// A rule is broken at a token, or not.
    pub fn note_if(&mut self, broken: bool, at: usize, rule: u8) -> Result<(), NoMemory>
        ensures { OnOk result (self.new ≡ spec.note_if broken at rule self.old) }
    {
        if broken {
            return self.note(at, rule);
        }
        Ok(())
    }
}

// ---- declarations and meanings
impl State {
    /// What stands at a token.
    pub fn mean(&mut self, at: usize, meaning: Meaning) -> Result<(), NoMemory>
        ensures { OnOk result (self.new ≡ spec.mean at meaning self.old) }
    {
        self.names.mean(at, meaning)
    }

    /// Declares a name in the innermost block.
    pub fn declare(&mut self, name: Bytes, declares: Declares) -> Result<(), NoMemory>
        ensures { OnOk result (self.new ≡ spec.declare name declares self.old) }
    {
        self.ordinary.declare(name, declares)
    }

    /// Declares a tag in the innermost block.
    pub fn declare_tag(&mut self, tag: Bytes, declares: Declares) -> Result<(), NoMemory>
        ensures { OnOk result (self.new ≡ spec.declare_tag tag declares self.old) }
    {
        self.tags.declare(tag, declares)
    }

    /// A name has linkage from here on.
    pub fn link(&mut self, name: Bytes, declares: Declares) -> Result<(), NoMemory>
        ensures { OnOk result (self.new ≡ spec.link name declares self.old) }
    {
        self.linked.declare(name, declares)
    }

    /// Adds an object, which has the next number.
    pub fn add_object(&mut self, object: Object) -> Result<(), NoMemory>
        ensures { OnOk result (self.new ≡ spec.with_object object self.old) }
    {
        self.names.add_object(object)
    }

    /// Adds a function, which has the next number.
    pub fn add_function(&mut self, function: Function) -> Result<(), NoMemory>
        ensures { OnOk result (self.new ≡ declaration.with_function function self.old) }
    {
        self.names.add_function(function)
    }

    /// Goes past a token.
    pub fn pass(&mut self, at: usize)
        ensures { self.new ≡ spec.passes at self.old }
    {
        if self.reached < at {
            self.reached = at;
        }
    }

    /// What follows is under `sizeof`, or not.
    pub fn set_unevaluated(&mut self, is_unevaluated: bool)
        ensures { self.new ≡ record self.old { is_unevaluated = is_unevaluated } }
    {
        self.is_unevaluated = is_unevaluated;
    }
}

// ---- structs (C11 6.7.2.1)
impl State {
    /// A new struct, which has the next number. Its tag is declared in the innermost block.
    pub fn new_struct(&mut self, tag: Option<Bytes>) -> Result<usize, NoMemory>
        ensures state { OnOk result (self.new ≡ (tags.new_struct tag self.old).state) }
        ensures number { IfOk result (λ number. number ≡ (tags.new_struct tag self.old).number) }
    {
        let number = self.names.names().structs.len();
        self.names.add_struct()?;
        match tag {
            Some(tag) => self.declare_tag(tag, Declares::Struct { number })?,
            None => {}
        }
        Ok(number)
    }

    /// Whether the members of a struct have begun.
    pub fn has_begun(&self, number: usize) -> bool
        ensures { result ≡ tags.has_begun number self.now }
    {
        self.begun.contains(number)
    }

    /// The members of a struct begin.
    pub fn begin(&mut self, number: usize) -> Result<(), NoMemory>
        ensures { OnOk result (self.new ≡ (tags.begin (record { state = self.old; number = number })).state) }
    {
        self.begun.push(number)
    }
}

// ---- enums and parameters
impl State {
    /// The constants of an enum follow. Its tag, at the token after this one, stands once in a block (6.7.2.3p1). Tokens past
    /// what a number can count are want of memory.
    pub fn begin_enum(&mut self, tag: Bytes, at: usize) -> Result<(), NoMemory>
        ensures { OnOk result (self.new ≡ tags.begins_enum (Some tag) at self.old) }
    {
        if self.tags.has_here(tag.as_slice()) {
            if at == usize::MAX {
                return Err(NoMemory);
            }
            return self.note(at + 1, 4);
        }
        self.declare_tag(tag, Declares::Enum)
    }

    /// A parameter is the object of this number. Its name stands once among the parameters (6.2.1p7, 6.7p3).
    pub fn declare_parameter(
        &mut self,
        name: Bytes,
        at: usize,
        number: usize,
    ) -> Result<(), NoMemory>
        ensures { OnOk result (self.new ≡ declarator.declares_parameter (Some name) at number self.old) }
    {
        let is_known = self.ordinary.has_here(name.as_slice());
        self.note_if(is_known, at, 4)?;
        self.mean(at, Meaning::Object { number })?;
        self.declare(name, Declares::Object { number })
    }
}

// ---- functions and their bodies (6.9.1)
impl State {
    /// A label stands once in a function (6.8.1p3).
    pub fn label(&mut self, name: Bytes, at: usize) -> Result<(), NoMemory>
        ensures { OnOk result (self.new ≡ text.labelled name at self.old) }
    {
        let is_known = self.labels.contains(name.as_slice());
        self.note_if(is_known, at, 4)?;
        self.labels.push(name)
    }

    /// The file defines an object of this name, or not.
    pub fn define_if(&mut self, defines: bool, name: &Bytes) -> Result<(), NoMemory>
        ensures { OnOk result (self.new ≡ declaration.defines_if defines name.now self.old) }
    {
        if defines {
            let name = name.copy(self.alloc)?;
            self.defines.push(name)?;
        }
        Ok(())
    }

    /// A function's body begins, with what its parameters declare (6.2.1p4).
    pub fn enter_body(&mut self, parameters: Option<Block>) -> Result<(), NoMemory>
        ensures { OnOk result (self.new ≡ text.body_block parameters self.old) }
    {
        match parameters {
            Some(block) => self.enter_with(block),
            None => self.enter(),
        }
    }

    /// The body of the function of this name follows. The objects from the first one on are its parameters.
    pub fn begin_body(&mut self, first: usize, name: Option<&Bytes>)
        ensures { self.new ≡ text.begins_body first (option_copied name.entry) self.old }
    {
        let Some(name) = name else {
            return;
        };
        let declared = function_declared(self.find(name.as_slice()));
        self.labels = NameSet::new(self.alloc);
        match declared {
            Some(number) => {
                self.names.own_objects(number, first);
                self.function = Some(number);
            }
            None => {}
        }
    }

    /// A function's body ends.
    pub fn leave_body(&mut self)
        ensures { self.new ≡ text.ends_body self.old }
    {
        self.leave();
        self.function = None;
    }

    /// A function is declared again.
    pub fn change_function(&mut self, number: usize, function: Function)
        requires { number < length self.old.names.functions }
        ensures { self.new ≡ declaration.change_function number function self.old }
    {
        self.names.set_function(number, function);
    }

    /// An object is declared again.
    pub fn change_object(&mut self, number: usize, object: Object)
        requires { number < length self.old.names.objects }
        ensures { self.new ≡ declaration.change_object number object self.old }
    {
        self.names.set_object(number, object);
    }
}

// ---- members and signatures
impl State {
    /// Whether the struct of this number has a member of this name.
    pub fn has_member(&self, number: usize, name: &[u8]) -> bool
        ensures { result ≡ is_some (member_in (members_of self.now.names.structs number) name.now) }
    {
        self.names.has_member(number, name)
    }

    /// The struct of this number has one more member. More cells than a number can count are want of memory.
    pub fn add_member(
        &mut self,
        number: usize,
        name: Bytes,
        ctype: Option<CType>,
    ) -> Result<(), NoMemory>
        ensures { OnOk result (self.new ≡ tags.change_struct number (tags.adds_member self.old name ctype) self.old) }
    {
        let structs = self.names.names().structs.as_slice();
        let Some(found) = structs.get(number) else {
            return Ok(());
        };
        let cells = cells_with(structs, ctype.as_ref(), found)?;
        let has_const = has_const_with(structs, ctype.as_ref(), found);
        let cell = found.cells;
        self.names
            .add_member(number, Member { name, ctype, cell }, cells, has_const)
    }

    /// The struct of this number is complete after the last name, constant or operator so far (6.7.2.1p8).
    pub fn complete_struct(&mut self, number: usize)
        ensures { self.new ≡ tags.change_struct number (λ s. record s { completed_at = Some self.old.reached }) self.old }
    {
        if number < self.names.names().structs.len() {
            self.names.complete_struct(number, self.reached);
        }
    }
}

// ---- signatures (6.7.6.3)
impl State {
    /// The number of a signature. Equal ones have one number; a new one has the next.
    pub fn number_signature(&mut self, signature: Signature) -> Result<usize, NoMemory>
        ensures state { OnOk result (self.new ≡ declarator.with_signature signature self.old) }
        ensures number { IfOk result (λ number. number ≡ signature_number self.old.names.signatures signature) }
    {
        self.names.number_signature(signature)
    }
}

/// The function that a declaration declares.
pub fn function_declared(entry: Option<&ScopeEntry>) -> Option<usize>
    ensures { result ≡ text.function_declared (option_copied entry.entry) }
{
    match entry {
        Some(entry) => match &entry.declares {
            Declares::Function { number } => Some(*number),
            _ => None,
        },
        None => None,
    }
}

/// How many cells a struct has with one more member of this type. More than a number can count are want of memory.
fn cells_with(structs: &[Struct], ctype: Option<&CType>, found: &Struct) -> Result<u64, NoMemory>
    ensures { IfOk result (λ cells. cells ≡ cells_after structs.now (option_copied ctype.entry) found.now.cells) }
{
    let Some(ctype) = ctype else {
        return Ok(found.cells);
    };
    let more = cell_count(structs, ctype);
    if more == u64::MAX || u64::MAX - more < found.cells {
        return Err(NoMemory);
    }
    Ok(found.cells + more)
}

/// Whether a struct has a `const` member, with one more member of this type.
fn has_const_with(structs: &[Struct], ctype: Option<&CType>, found: &Struct) -> bool
    ensures { result ≡ (found.now.has_const || declarator.holds (has_const structs.now) (option_copied ctype.entry)) }
{
    let Some(ctype) = ctype else {
        return found.has_const;
    };
    found.has_const || has_const(structs, ctype)
}
