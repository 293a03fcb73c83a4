// The fields of an object.
use bk_func::Sig;
use bk_ops::Target;
use std::marker::Model;

/// A name of an object, and where what it names stands.
#[derive(Drop, Debug)]
pub struct Symbol {
    /// The name's text, without a byte 0.
    pub name: String,
    /// Whether it names a function, else a variable.
    pub func: bool,
    /// The address of the first byte.
    pub address: u32,
    /// The count of bytes.
    pub size: u32,
}

impl Model for Symbol {
    ghost use Rattle.std.specs.Prelude.{string_bytes};
    ghost use Rattle.bk_elf.specs.Records.{SymbolRecord};

    ghost Value = { SymbolRecord };

    ghost view = { λ s. record { name = string_bytes s.name; func = s.func; address = s.address; size = s.size } };
}

/// The fields of an object. A contract sees them as a record of lists.
#[derive(Drop, Debug)]
pub struct Object {
    pub target: Target,
    /// The words of the functions, in package order.
    pub text: Vec<u32>,
    /// The constants that the text loads, rising.
    pub pool: Vec<u64>,
    /// The bytes of the data window at the start.
    pub window: Vec<u8>,
    /// The codes of the types of the signatures, rising.
    pub types: Vec<u32>,
    /// The signature of each function, in package order.
    pub sigs: Vec<Sig>,
    /// The names of the functions, in package order, and among them those of variables.
    pub symbols: Vec<Symbol>,
}

impl Model for Object {
    ghost use Rattle.bk_elf.specs.Records.{ObjectRecord};

    ghost Value = { ObjectRecord };

    ghost view = { λ o. record {
      target = o.target;
      text = o.text.items;
      pool = o.pool.items;
      window = o.window.items;
      types = o.types.items;
      sigs = o.sigs.items;
      symbols = o.symbols.items;
    } };
}

/// What a file was loaded as: the fields of the object that it holds.
pub type Image = Object;
