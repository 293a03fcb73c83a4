// The values that are made for a function, in order.
ghost use Rattle.std.specs.Prelude.{◌≡◌, ◌+◌, ◌++◌, ◌∷◌, [], IfOk, OnOk, pos};
ghost use Rattle.bk_func.specs.Edits.{value_of};
ghost use Rattle.bk_dec64.specs.Halves.{made, plain, of_64, half, argument, selection, phi, load, store, next_word};

use crate::made::Made;
use bk_func::{Aux, Value};
use bk_ops::{Family, Op, Ty};
use smallvec::SmallVec;
use std::alloc::{AllocError, Global};

/// The values that were made, and the number of the next one.
#[derive(Drop)]
pub(crate) struct Growth {
    pub(crate) next: u32,
    pub(crate) made: Vec<Made>,
}

impl Growth {
    /// Lists a value that stands in the block with this number. It has the next number.
    fn push(&mut self, block: u32, value: Value) -> Result<(), AllocError>
        ensures made { OnOk result (self.new.made.items ≡ self.old.made.items ++ made block value ∷ []) }
        ensures next { OnOk result (self.new.next ≡ self.old.next + 1) }
    {
        let Some(next) = self.next.checked_add(1) else {
            return Err(AllocError);
        };
        self.made.push(Made { block, value })?;
        self.next = next;
        Ok(())
    }

    /// Makes the half of a number that the op takes, and gives its number.
    pub(crate) fn half(
        &mut self,
        alloc: Global,
        block: u32,
        family: Family,
        of: u32,
    ) -> Result<u32, AllocError>
        ensures made { OnOk result (self.new.made.items ≡ self.old.made.items ++ made block (half family self.old.next of) ∷ []) }
        ensures next { OnOk result (self.new.next ≡ self.old.next + 1) }
        ensures number { IfOk result (λ n. n ≡ self.old.next) }
    {
        let number = self.next;
        let value = made_value(alloc, number, of_64(family), Ty::Uint32, &[of])?;
        self.push(block, value)?;
        Ok(number)
    }

    /// Makes the argument at a word, and gives its number.
    pub(crate) fn argument(
        &mut self,
        alloc: Global,
        block: u32,
        word: u32,
    ) -> Result<u32, AllocError>
        ensures made { OnOk result (self.new.made.items ≡ self.old.made.items ++ made block (argument self.old.next word) ∷ []) }
        ensures next { OnOk result (self.new.next ≡ self.old.next + 1) }
        ensures number { IfOk result (λ n. n ≡ self.old.next) }
    {
        let number = self.next;
        let value = argument(alloc, number, word);
        self.push(block, value)?;
        Ok(number)
    }

    /// Makes a word of what a call gave, and gives its number.
    pub(crate) fn selection(
        &mut self,
        alloc: Global,
        block: u32,
        call: u32,
        word: u32,
    ) -> Result<u32, AllocError>
        ensures made { OnOk result (self.new.made.items ≡ self.old.made.items ++ made block (selection self.old.next call word) ∷ []) }
        ensures next { OnOk result (self.new.next ≡ self.old.next + 1) }
        ensures number { IfOk result (λ n. n ≡ self.old.next) }
    {
        let number = self.next;
        let value = selection(alloc, number, call, word)?;
        self.push(block, value)?;
        Ok(number)
    }

    /// Makes a phi of halves, and gives its number.
    pub(crate) fn phi(&mut self, block: u32, args: SmallVec<u32, 4>) -> Result<u32, AllocError>
        ensures made { OnOk result (self.new.made.items ≡ self.old.made.items ++ made block (phi self.old.next args.items) ∷ []) }
        ensures next { OnOk result (self.new.next ≡ self.old.next + 1) }
        ensures number { IfOk result (λ n. n ≡ self.old.next) }
    {
        let number = self.next;
        let value = phi(number, args);
        self.push(block, value)?;
        Ok(number)
    }

    /// Makes a load of a word, and gives its number.
    pub(crate) fn load(
        &mut self,
        alloc: Global,
        block: u32,
        address: u32,
        memory: u32,
    ) -> Result<u32, AllocError>
        ensures made { OnOk result (self.new.made.items ≡ self.old.made.items ++ made block (load self.old.next address memory) ∷ []) }
        ensures next { OnOk result (self.new.next ≡ self.old.next + 1) }
        ensures number { IfOk result (λ n. n ≡ self.old.next) }
    {
        let number = self.next;
        let args = [address, memory];
        let value = made_value(alloc, number, plain(Family::Load), Ty::Uint32, &args)?;
        self.push(block, value)?;
        Ok(number)
    }

    /// Makes a store of a word with these arguments, and gives its number.
    pub(crate) fn store(
        &mut self,
        alloc: Global,
        block: u32,
        args: &[u32],
    ) -> Result<u32, AllocError>
        ensures made { OnOk result (self.new.made.items ≡ self.old.made.items ++ made block (store self.old.next args.now) ∷ []) }
        ensures next { OnOk result (self.new.next ≡ self.old.next + 1) }
        ensures number { IfOk result (λ n. n ≡ self.old.next) }
    {
        let number = self.next;
        let value = store(alloc, number, args)?;
        self.push(block, value)?;
        Ok(number)
    }

    /// Makes the address of the word behind, and gives its number.
    pub(crate) fn next_word(
        &mut self,
        alloc: Global,
        block: u32,
        address: u32,
    ) -> Result<u32, AllocError>
        ensures made { OnOk result (self.new.made.items ≡ self.old.made.items ++ made block (next_word self.old.next address) ∷ []) }
        ensures next { OnOk result (self.new.next ≡ self.old.next + 1) }
        ensures number { IfOk result (λ n. n ≡ self.old.next) }
    {
        let number = self.next;
        let value = next_word(alloc, number, address)?;
        self.push(block, value)?;
        Ok(number)
    }
}

/// An op without widths in its name.
fn plain(family: Family) -> Op
    ensures { result ≡ plain family }
{
    Op { family, a: 0, b: 0 }
}

/// An op of a number of 64 bits.
pub(crate) fn of_64(family: Family) -> Op
    ensures { result ≡ of_64 family }
{
    Op {
        family,
        a: 64,
        b: 0,
    }
}

fn made_value(alloc: Global, number: u32, op: Op, ty: Ty, args: &[u32]) -> Result<Value, AllocError>
    ensures { IfOk result (λ value. value ≡ value_of number op ty args.now (pos 0) Aux.Nothing) }
{
    Ok(Value {
        id: number,
        op,
        ty,
        args: SmallVec::from_slice(alloc, args)?,
        int: 0,
        aux: Aux::Nothing,
    })
}

fn argument(alloc: Global, number: u32, word: u32) -> Value
    ensures { result ≡ argument number word }
{
    Value {
        id: number,
        op: plain(Family::Arg),
        ty: Ty::Uint32,
        args: SmallVec::new(alloc),
        int: 0,
        aux: Aux::Arg(word),
    }
}

fn selection(alloc: Global, number: u32, call: u32, word: u32) -> Result<Value, AllocError>
    ensures { IfOk result (λ value. value ≡ selection number call word) }
{
    let mut value = made_value(alloc, number, plain(Family::SelectN), Ty::Uint32, &[call])?;
    value.int = i64::from(word);
    Ok(value)
}

fn phi(number: u32, args: SmallVec<u32, 4>) -> Value
    ensures { result ≡ phi number args.items }
{
    Value {
        id: number,
        op: plain(Family::Phi),
        ty: Ty::Uint32,
        args,
        int: 0,
        aux: Aux::Nothing,
    }
}

fn store(alloc: Global, number: u32, args: &[u32]) -> Result<Value, AllocError>
    ensures { IfOk result (λ value. value ≡ store number args.now) }
{
    let mut value = made_value(alloc, number, plain(Family::Store), Ty::Mem, args)?;
    value.aux = Aux::Ty(Ty::Uint32);
    Ok(value)
}

fn next_word(alloc: Global, number: u32, address: u32) -> Result<Value, AllocError>
    ensures { IfOk result (λ value. value ≡ next_word number address) }
{
    let mut value = made_value(alloc, number, plain(Family::OffPtr), Ty::Ptr, &[address])?;
    value.int = 4;
    Ok(value)
}
