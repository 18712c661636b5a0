use crate::{Addend, BlockItem, Operand, Program, Sum};
use kv_base::{Copied, NoMemory};
use std::alloc::Global;

impl Copied for Operand {
    fn copy(&self, alloc: Global) -> Result<Operand, NoMemory> {
        match self {
            Operand::Name { name } => Ok(Operand::Name {
                name: name.copy(alloc)?,
            }),
            Operand::Number { value } => Ok(Operand::Number { value: *value }),
        }
    }
}

impl Copied for Addend {
    fn copy(&self, alloc: Global) -> Result<Addend, NoMemory> {
        Ok(Addend {
            sign: self.sign,
            operand: self.operand.copy(alloc)?,
        })
    }
}

impl Copied for Sum {
    fn copy(&self, alloc: Global) -> Result<Sum, NoMemory> {
        Ok(Sum {
            first: self.first.copy(alloc)?,
            rest: self.rest.copy(alloc)?,
        })
    }
}

impl Copied for BlockItem {
    fn copy(&self, alloc: Global) -> Result<BlockItem, NoMemory> {
        match self {
            BlockItem::Declare { name, value, line } => Ok(BlockItem::Declare {
                name: name.copy(alloc)?,
                value: value.copy(alloc)?,
                line: *line,
            }),
            BlockItem::Assign { name, value, line } => Ok(BlockItem::Assign {
                name: name.copy(alloc)?,
                value: value.copy(alloc)?,
                line: *line,
            }),
            BlockItem::Assert {
                relation,
                left,
                right,
                line,
            } => Ok(BlockItem::Assert {
                relation: *relation,
                left: left.copy(alloc)?,
                right: right.copy(alloc)?,
                line: *line,
            }),
        }
    }
}

impl Copied for Program {
    fn copy(&self, alloc: Global) -> Result<Program, NoMemory> {
        Ok(Program {
            items: self.items.copy(alloc)?,
        })
    }
}
