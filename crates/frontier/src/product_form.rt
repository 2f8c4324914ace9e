//! Ends that are kept as products.
ghost use Rattle.std.specs.Prelude.{◌≡◌, ◌<◌, ◌+◌, ◌↔◌, ◌++◌, ◌∷◌, [], IfOk, IsTrue, OnErr, OnOk, length, map};
ghost use Rattle.products.specs.Products.{rows_in};

use ends::{PendingOp, Table};
use models::Name;
use product_ends::Workspace;
use products::Products;
use std::alloc::{AllocError, Global};
use std::hash::Hash;

// As few rows as these stay rows: they are faster then than products.
const FEW_ROWS: usize = 8;

// More rows than these stay rows too, since a row is found by an index and a product is not.
const MOST_ROWS: usize = 32;

// Up to this number of products stay products, for any number of rows.
const FEW_PRODUCTS: usize = 32;

// More products than this number become rows. So do more than [`FEW_PRODUCTS`] products with fewer than four rows each on average.
const MOST_PRODUCTS: usize = 128;

// If this number of calls were not tried yet and one more gets its place, these four may lead from few ends to many.
const MANY_UNTRIED: usize = 3;

// Up to this number of answers, and of states, those in use get no new numbers.
const FEW_FOUND: usize = 24;

const FEW_STATES: usize = 64;

/// The products, the memory in which events work, and the numbers of answers and of states above which the products get new numbers.
#[derive(Drop)]
pub struct ProductForm<S> {
    pub kept: Products,
    pub room: Workspace<S>,
    pub most_found: usize,
    pub most_states: usize,
}

/// These products, with memory to work in. Takes constant time.
pub fn of_kept<S: Drop>(alloc: Global, kept: Products) -> Result<Box<ProductForm<S>>, AllocError>
    ensures { IfOk result (λ products. products.value.kept ≡ kept) }
{
    let products = ProductForm {
        kept,
        room: Workspace::new(alloc),
        most_found: FEW_FOUND,
        most_states: FEW_STATES,
    };
    Ok(Box::new(alloc, products)?)
}

/// Whether products become rows: there are more than 128 of them, or more than 32 that have fewer than four rows each on the
/// average. Takes constant time.
pub fn are_many<S>(products: &ProductForm<S>) -> bool {
    let many = products.kept.len();
    many > MOST_PRODUCTS || many > FEW_PRODUCTS && many as u64 > products.kept.rows() / 4
}

/// Whether there are more things found, or more states, than may be before the products get new numbers. Takes constant time.
pub fn is_crowded<S: Hash + Drop>(products: &ProductForm<S>, table: &Table<S>) -> bool {
    table.founds.len() > products.most_found || table.states.len() > products.most_states
}

/// The numbers of answers and of states above which products with the numbers of this table get new ones. They are twice the numbers of the
/// table, and at least 24 and 64. Takes constant time.
pub fn to_come<S: Hash + Drop>(table: &Table<S>) -> (usize, usize) {
    (
        table.founds.len().saturating_mul(2).max(FEW_FOUND),
        table.states.len().saturating_mul(2).max(FEW_STATES),
    )
}

// Whether a read is among the calls.
fn has_read(calls: &[PendingOp]) -> bool {
    for call in calls {
        if call.op.name == Name::Read {
            return true;
        }
    }
    false
}

/// Whether rows become products before an operation gets its place. There are at most 32 rows, and a read is among the calls, which may
/// have found the state in each order of the changes. And there are more than 8 rows, or with the operation four calls or more were not
/// tried, so that the next ok finds many ends of few. Costs O(calls).
pub fn should_be_products<S: Hash + Drop>(
    table: &Table<S>,
    calls: &[PendingOp],
    tried: usize,
) -> bool {
    let rows = table.rows.len();
    let grow = rows > FEW_ROWS || calls.len().saturating_sub(tried) >= MANY_UNTRIED;
    grow && rows <= MOST_ROWS && has_read(calls)
}

/// The products that are left take the place of the others. Takes constant time.
pub fn take_left<S>(products: &mut ProductForm<S>)
    ensures { products.new.kept ≡ products.old.room.left }
{
    products.kept.trade(&mut products.room.left);
}

/// Each row gets a zero behind it. `AllocError` if there is no memory for it: then they are as they were.
pub fn lengthen<S>(alloc: Global, products: &mut ProductForm<S>) -> Result<(), AllocError>
    ensures longer { OnOk result (products.new.kept ≡ (
      products.old.kept.0 + 1,
      map (λ product. (product.0, product.1 ++ 1 ∷ [])) products.old.kept.1,
    )) }
    ensures same { OnErr result (products.new.kept ≡ products.old.kept) }
{
    products.kept.lengthen(alloc)
}

/// The same products, with memory of their own. Costs O(products).
pub fn copied<S: Drop>(
    alloc: Global,
    products: &ProductForm<S>,
) -> Result<Box<ProductForm<S>>, AllocError>
    ensures { IfOk result (λ copy. copy.value.kept ≡ products.now.kept) }
{
    of_kept(alloc, products.kept.copied(alloc)?)
}

/// Whether some row is left. Takes constant time.
pub fn some_left<S>(products: &ProductForm<S>) -> bool
    ensures { IsTrue result ↔ (0 < length (rows_in products.now.room.left.1)) }
{
    products.room.left.rows() > 0
}
