//! The move of a generator along the path to the item that it gave.
ghost use Rattle.std.specs.Prelude.{◌≡◌, drop};
ghost use Rattle.generators.specs.Generators.{generator_of, generators_of};
ghost use Rattle.generators.specs.Moves.{moved, along, along_first};

use crate::form::Gen;

/// Moves the generator along a path. Does not allocate; drops the children that it passes.
#[cycle(advance)]
pub fn advance(generator: &mut Gen, path: &[usize])
    ensures { generator_of generator.new ≡ moved (generator_of generator.old) path.now }
{
    match generator {
        Gen::Ops(items) => items.turn(),
        Gen::Limit(left, child) => {
            *left = left.saturating_sub(1);
            advance_child(child, path);
        }
        Gen::Clients(child) => advance_child(child, path),
        Gen::Nemesis(child) => advance_child(child, path),
        Gen::Mix(children) => advance_one(children, path),
        Gen::EachThread(copies) => advance_one(copies, path),
        Gen::Seq(children) => advance_first(children, path),
        Gen::Phases(children) => advance_first(children, path),
    }
}

#[cycle(advance)]
fn advance_child(child: &mut Box<Gen>, path: &[usize])
    ensures { generator_of child.new.value ≡ moved (generator_of child.old.value) path.now }
{
    advance(child, path);
}

// Moves the child that the path names first.
#[cycle(advance)]
fn advance_one(children: &mut Vec<Gen>, path: &[usize])
    ensures { generators_of children.new.items
        ≡ along (generators_of children.old.items) path.now }
{
    let Some((place, rest)) = path.split_first() else {
        return;
    };
    if *place < children.len() {
        advance(&mut children[*place], rest);
    }
}

// Drops the children before the one that the path names first, and moves this child.
#[cycle(advance)]
fn advance_first(children: &mut Vec<Gen>, path: &[usize])
    ensures { generators_of children.new.items
        ≡ along_first (generators_of children.old.items) path.now }
{
    let Some((place, rest)) = path.split_first() else {
        return;
    };
    drop_front(children, *place);
    if !children.is_empty() {
        advance(&mut children[0], rest);
    }
}

// Drops the first `number` children.
fn drop_front(children: &mut Vec<Gen>, number: usize)
    ensures { children.new.items ≡ drop number children.old.items }
{
    let most = number.min(children.len());
    drop(children.drain(..most));
}
