// The uses of values, by where they stand.
ghost use Rattle.std.specs.Prelude.{◌≡◌, ◌↔◌, IfOk, OnOk, IsTrue, map, Some};
ghost use Rattle.std.specs.List.{Contains};
ghost use Rattle.std.specs.Option.{option_and_then};
ghost use Rattle.bk_func.specs.Form.Text.{IsPhi};
ghost use Rattle.bk_func.specs.Records.{ValueRecord};
ghost use Rattle.bk_live.specs.Adds.{Adds};
ghost use Rattle.bk_live.specs.Homes.{AreHomes, ArePlaces, home, place, end_of};
ghost use Rattle.bk_live.specs.Uses.{IsTakenAt, IsSentAt, IsUseOf, IsUseIn, AreUses, end_behind};

use crate::homes::{Homes, Spot, order_of};
use crate::places::Places;
use bk_func::{Block, Func, Value};
use bk_ops::Family;
use std::alloc::{AllocError, Global};

/// A use of the value with this number.
#[derive(Clone, Copy, Drop)]
pub(crate) struct Use {
    pub(crate) value: u32,
    pub(crate) spot: Spot,
}

/// The orders of a function's blocks, and where its values and blocks stand.
#[derive(Drop)]
pub(crate) struct Scope<'a> {
    pub(crate) orders: &'a [Vec<u32>],
    pub(crate) homes: Homes,
    pub(crate) places: Places,
}

impl<'a> Scope<'a> {
    pub(crate) fn new(
        alloc: Global,
        func: &Func,
        orders: &'a [Vec<u32>],
    ) -> Result<Scope<'a>, AllocError>
        ensures homes { IfOk result (λ scope. AreHomes (map (λ o. o.items) orders.now) (home scope.homes)) }
        ensures places { IfOk result (λ scope. ArePlaces func.now.blocks (place scope.places)) }
        ensures orders { IfOk result (λ scope. scope.orders.now ≡ orders.now) }
    {
        Ok(Scope {
            orders,
            homes: Homes::new(alloc, orders)?,
            places: Places::new(alloc, &func.blocks)?,
        })
    }

    /// All uses in the function.
    pub(crate) fn uses(&self, alloc: Global, func: &Func) -> Result<Vec<Use>, AllocError>
        ensures { IfOk result (λ uses. AreUses (map (λ o. o.items) self.now.orders.now) (home self.now.homes) (place self.now.places) func.now.blocks uses.items) }
    {
        let mut uses = Vec::new(alloc);
        for (at, block) in func.blocks.iter().enumerate() {
            self.push_block(&mut uses, at, block)?;
        }
        Ok(uses)
    }

    fn push_block(&self, uses: &mut Vec<Use>, at: usize, block: &Block) -> Result<(), AllocError>
        ensures { OnOk result (Adds (Contains uses.old.items) (IsUseIn (map (λ o. o.items) self.now.orders.now) (home self.now.homes) (place self.now.places) at block.now) (Contains uses.new.items)) }
    {
        push_control(uses, self.end_of(at), block.control)?;
        self.push_values(uses, &block.preds, &block.values)?;
        Ok(())
    }

    fn push_values(
        &self,
        uses: &mut Vec<Use>,
        preds: &[u32],
        values: &[Value],
    ) -> Result<(), AllocError>
        ensures { OnOk result (Adds (Contains uses.old.items) (λ u. (v : ValueRecord) × Contains values.now v × IsUseOf (map (λ o. o.items) self.now.orders.now) (home self.now.homes) (place self.now.places) preds.now v u) (Contains uses.new.items)) }
    {
        for value in values {
            self.push_value(uses, preds, value)?;
        }
        Ok(())
    }

    fn push_value(
        &self,
        uses: &mut Vec<Use>,
        preds: &[u32],
        value: &Value,
    ) -> Result<(), AllocError>
        ensures { OnOk result (Adds (Contains uses.old.items) (IsUseOf (map (λ o. o.items) self.now.orders.now) (home self.now.homes) (place self.now.places) preds.now value.now) (Contains uses.new.items)) }
    {
        let args = value.args.as_slice();
        if is_phi(value) {
            self.push_sent(uses, preds, args)?;
            return Ok(());
        }
        push_taken(uses, self.homes.find(value.id), args)?;
        Ok(())
    }

    /// What a phi takes is used at the ends of the predecessors in their places.
    fn push_sent(&self, uses: &mut Vec<Use>, preds: &[u32], args: &[u32]) -> Result<(), AllocError>
        ensures { OnOk result (Adds (Contains uses.old.items) (IsSentAt (map (λ o. o.items) self.now.orders.now) (place self.now.places) preds.now args.now) (Contains uses.new.items)) }
    {
        for (index, arg) in args.iter().enumerate() {
            push_at(uses, self.end_behind(preds.get(index).copied()), *arg)?;
        }
        Ok(())
    }

    /// The end of the block with this number, if there is a number.
    fn end_behind(&self, number: Option<u32>) -> Option<Spot>
        ensures { result ≡ option_and_then (end_behind (map (λ o. o.items) self.now.orders.now) (place self.now.places)) number }
    {
        let place = self.places.find(number?)?;
        Some(self.end_of(place))
    }

    /// The end of the block at this place.
    fn end_of(&self, block: usize) -> Spot
        ensures { result ≡ end_of (map (λ o. o.items) self.now.orders.now) block }
    {
        Spot {
            block,
            entry: order_of(self.orders, block).len(),
        }
    }
}

fn push_control(uses: &mut Vec<Use>, spot: Spot, control: Option<u32>) -> Result<(), AllocError>
    ensures { OnOk result (Adds (Contains uses.old.items) (λ u. (control ≡ Some u.value) × (spot ≡ u.spot)) (Contains uses.new.items)) }
{
    let Some(value) = control else { return Ok(()) };
    uses.push(Use { value, spot })?;
    Ok(())
}

/// The values with these numbers are used at the spot, if there is one.
fn push_taken(uses: &mut Vec<Use>, spot: Option<Spot>, args: &[u32]) -> Result<(), AllocError>
    ensures { OnOk result (Adds (Contains uses.old.items) (IsTakenAt spot args.now) (Contains uses.new.items)) }
{
    for arg in args {
        push_at(uses, spot, *arg)?;
    }
    Ok(())
}

fn push_at(uses: &mut Vec<Use>, spot: Option<Spot>, value: u32) -> Result<(), AllocError>
    ensures { OnOk result (Adds (Contains uses.old.items) (λ u. (spot ≡ Some u.spot) × (u.value ≡ value)) (Contains uses.new.items)) }
{
    let Some(spot) = spot else { return Ok(()) };
    uses.push(Use { value, spot })?;
    Ok(())
}

pub(crate) fn is_phi(value: &Value) -> bool
    ensures { IsTrue result ↔ IsPhi value.now }
{
    value.op.family == Family::Phi
}
