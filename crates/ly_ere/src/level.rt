ghost use Rattle.std.specs.Prelude.{◌≡◌, ◌≢◌, ℕ, ◌<◌, ◌≤◌, length, Some, None, IfOk, IfErr};
ghost use Rattle.std.specs.Option.{ForSome};
ghost use Rattle.ly_ere.specs.Arena.{part_of};
ghost use Rattle.ly_ere.specs.Private.Groups.{new_group, open_branch, with_atom, with_postfix, with_interval};
ghost use Rattle.ly_ere.specs.Private.Groups.{with_bar, whole};
ghost use Rattle.ly_ere.specs.Private.Levels.{ArePartsBelow, IsExtended, seen, group_of, operated};
ghost use Rattle.ly_ere.specs.declared.fault.StepFault.TheVariants.{OutOfMemory};

use crate::arena::Arena;
use crate::element::Postfix;
use crate::fault::{StepFault, SyntaxKind};
use crate::node::Node;
use std::alloc::AllocError;

/// A group that is being read, or the whole expression. It has the finished branches and the open branch. The last
/// piece of the open branch, an atom with its operators, is kept separately, since another operator may follow it. Each
/// part is the number of a node.
#[derive(Clone, Copy)]
pub(crate) struct Level {
    /// The finished branches.
    either: Option<usize>,
    /// The open branch before its last piece.
    branch: Option<usize>,
    /// The last piece of the open branch.
    piece: Option<usize>,
}

impl Level {
    /// Returns a group without contents.
    pub(crate) fn new() -> Self
        ensures parts { (n : ℕ) → ArePartsBelow n result }
        ensures empty { (arena : _) → group_of arena result ≡ new_group }
    {
        Level {
            either: None,
            branch: None,
            piece: None,
        }
    }

    /// Returns the group with one more atom.
    pub(crate) fn with_atom(self, arena: &mut Arena, atom: usize) -> Result<Level, AllocError>
        requires parts { ArePartsBelow (length arena.old) self }
        requires within { atom < length arena.old }
        ensures parts { IfOk result (ArePartsBelow (length arena.new)) }
        ensures atom { IfOk result (λ l. group_of arena.new l ≡ with_atom (group_of arena.old self)
            (part_of arena.old atom)) }
        ensures grown { IsExtended arena.old arena.new }
    {
        let branch = self.open_branch(arena)?;
        Ok(Level {
            either: self.either,
            branch,
            piece: Some(atom),
        })
    }

    /// Returns the group with an operator applied to its last piece.
    pub(crate) fn with_postfix(
        self,
        arena: &mut Arena,
        postfix: Postfix,
    ) -> Result<Level, StepFault>
        requires parts { ArePartsBelow (length arena.old) self }
        ensures parts { IfOk result (ArePartsBelow (length arena.new)) }
        ensures operator { IfOk result (λ l. with_postfix (group_of arena.old self) (operated postfix)
            ≡ Some (group_of arena.new l)) }
        ensures refused { IfErr result (λ e. e ≢ OutOfMemory → with_postfix (group_of arena.old self) (operated postfix)
            ≡ None) }
        ensures grown { IsExtended arena.old arena.new }
    {
        let piece = self.piece.ok_or(SyntaxKind::StrayOperator)?;
        let over = arena.push(postfix.over(piece))?;
        Ok(Level {
            either: self.either,
            branch: self.branch,
            piece: Some(over),
        })
    }

    /// Returns the group with an interval applied to its whole open branch.
    pub(crate) fn with_interval(
        self,
        arena: &mut Arena,
        least: u8,
        most: Option<u8>,
    ) -> Result<Level, StepFault>
        requires parts { ArePartsBelow (length arena.old) self }
        ensures parts { IfOk result (ArePartsBelow (length arena.new)) }
        ensures interval { IfOk result (λ l. with_interval (group_of arena.old self) least most
            ≡ Some (group_of arena.new l)) }
        ensures refused { IfErr result (λ e. e ≢ OutOfMemory → with_interval (group_of arena.old self) least most
            ≡ None) }
        ensures grown { IsExtended arena.old arena.new }
    {
        let branch = self.open_branch(arena)?.ok_or(SyntaxKind::StrayOperator)?;
        let over = arena.push(Node::Repeat {
            least,
            most,
            part: branch,
        })?;
        Ok(Level {
            either: self.either,
            branch: Some(over),
            piece: None,
        })
    }

    /// Returns the group with its open branch finished and a new one begun.
    pub(crate) fn with_bar(self, arena: &mut Arena) -> Result<Level, StepFault>
        requires parts { ArePartsBelow (length arena.old) self }
        ensures parts { IfOk result (ArePartsBelow (length arena.new)) }
        ensures bar { IfOk result (λ l. with_bar (group_of arena.old self) ≡ Some (group_of arena.new l)) }
        ensures refused { IfErr result (λ e. e ≢ OutOfMemory → with_bar (group_of arena.old self) ≡ None) }
        ensures grown { IsExtended arena.old arena.new }
    {
        let whole = self.whole(arena)?;
        Ok(Level {
            either: Some(whole),
            branch: None,
            piece: None,
        })
    }

    /// Returns the expression of the whole group.
    pub(crate) fn whole(self, arena: &mut Arena) -> Result<usize, StepFault>
        requires parts { ArePartsBelow (length arena.old) self }
        ensures within { IfOk result (λ n. n < length arena.new) }
        ensures whole { IfOk result (λ n. whole (group_of arena.old self) ≡ Some (part_of arena.new n)) }
        ensures refused { IfErr result (λ e. e ≢ OutOfMemory → whole (group_of arena.old self) ≡ None) }
        ensures grown { IsExtended arena.old arena.new }
    {
        let branch = self.open_branch(arena)?.ok_or(SyntaxKind::Empty)?;
        match self.either {
            Some(either) => Ok(arena.push(Node::Either(either, branch))?),
            None => Ok(branch),
        }
    }

    /// Returns the open branch with its last piece, if it has any.
    fn open_branch(self, arena: &mut Arena) -> Result<Option<usize>, AllocError>
        requires parts { ArePartsBelow (length arena.old) self }
        ensures within { IfOk result (λ branch. ForSome branch (λ n. n < length arena.new)) }
        ensures branch { IfOk result (λ branch. seen arena.new branch ≡ open_branch (group_of arena.old self)) }
        ensures grown { IsExtended arena.old arena.new }
    {
        match (self.branch, self.piece) {
            (Some(branch), Some(piece)) => {
                let joined = arena.push(Node::Concat(branch, piece))?;
                Ok(Some(joined))
            }
            (Some(branch), None) => Ok(Some(branch)),
            (None, piece) => Ok(piece),
        }
    }
}
