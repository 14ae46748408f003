// What C holds for a process.
ghost use Rattle.std.specs.Prelude.{◌≡◌, ◌↔◌, IsSome, IsTrue, Option, Some, None};
ghost use Rattle.std.specs.Option.{MatchOption};
ghost use Rattle.std.specs.Borrow.{sem};
ghost use Rattle.block_pool.specs.Passing.{Passed};

use box_parts::BoxParts;
use pool_member::Member;
use std::alloc::Global;
use std::marker::Model;
use std::ptr::null_mut;

/// What C holds for a process: nothing, or a member on the heap. The pointer is null where it is nothing, so zeroed memory
/// is a closed handle.
#[repr(C)]
pub struct LoskebriPass {
    at: *mut u8,
    alloc: Global,
    pub ghost member: { Option Passed },
}

impl Model for LoskebriPass {
    ghost use Rattle.loskebri_c.specs.Kept.{kept};

    ghost also_owns = { λ pass. kept pass.alloc pass.at pass.member };
}

impl LoskebriPass {
    ghost use Rattle.loskebri_c.specs.Lending.{LendsMember};

    /// The handle of nothing.
    pub fn closed(alloc: Global) -> LoskebriPass
        ensures { result.member ≡ None }
    {
        LoskebriPass {
            at: null_mut(),
            alloc,
        }
    }

    fn of_parts(parts: BoxParts<Member, Global>) -> LoskebriPass
        ensures { result.member ≡ Some parts.value }
    {
        let BoxParts { at, alloc } = parts;
        LoskebriPass {
            at: at.cast(),
            alloc,
        }
    }

    fn into_parts(self) -> Option<BoxParts<Member, Global>>
        ensures { MatchOption result (self.member ≡ None) (λ parts. self.member ≡ Some parts.value) }
    {
        let LoskebriPass { at, alloc } = self;
        if at.is_null() {
            None
        } else {
            Some(BoxParts {
                at: at.cast(),
                alloc,
            })
        }
    }

    /// The handle that owns this member.
    pub fn of(member: Box<Member>) -> LoskebriPass
        ensures { result.member ≡ Some member.value }
    {
        LoskebriPass::of_parts(BoxParts::of(member))
    }

    /// The member, if the handle owns one.
    pub fn into_box(self) -> Option<Box<Member>>
        ensures { MatchOption result (self.member ≡ None) (λ member. self.member ≡ Some member.value) }
    {
        match self.into_parts() {
            Some(parts) => Some(parts.into_box()),
            None => None,
        }
    }

    /// Whether the handle owns no member. It stays as it is.
    #[inline]
    pub fn is_closed(&mut self) -> bool
        ensures closed { IsTrue result ↔ self.old.member ≡ None }
        ensures same { self.new ≡ self.old }
    {
        self.at.is_null()
    }

    /// The member that an open handle owns, where it lies: the handle isn't written, so that handles of different threads may
    /// share a cache line.
    #[inline]
    pub fn member(&mut self) -> &mut Member
        requires { IsSome self.old.member }
        ensures* lends { sem 𝓛 (LendsMember self.entry result) }
        ensures member { Some result.now ≡ self.old.member }
    {
        unsafe { &mut *self.at.cast() }
    }

    /// Lets go of the member, if the handle owns one. No handle is let go of otherwise: the type has no `Drop`.
    pub fn close(self) {
        if let Some(member) = self.into_box() {
            drop(member);
        }
    }
}

// C may hand a handle to another thread: this proof is what allows it.
unsafe impl Send for LoskebriPass {}
