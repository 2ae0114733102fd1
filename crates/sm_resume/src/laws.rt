//! What holds of ids and of decisions, whatever code spells or takes them: each function's contract is
//! a law, and its body is empty.

ghost use Rattle.std.specs.Prelude.{◌≡◌, ℕ, ◌^◌, ◌<◌, ◌≤◌, All, length, Some};
ghost use Rattle.sm_resume.specs.Resumption.{HasCounts, decision, decision_of};
ghost use Rattle.sm_resume.specs.Spelling.{IsIdByte, IsResumeId, spelling};
ghost use Rattle.sm_resume.specs.declared.decision.Facts.{Facts};
ghost use Rattle.sm_resume.specs.declared.id.ResumeId.{ResumeId};

/// Two ids are never spelt alike. A spelling has at most 53 bytes, and none that XML would escape.
pub fn spellings_tell_ids_apart()
    ensures unique { (id other : ResumeId) → IsResumeId id → IsResumeId other
        → spelling id ≡ spelling other → id ≡ other }
    ensures short { (id : ResumeId) → IsResumeId id → length (spelling id) ≤ 53 }
    ensures bytes { (id : ResumeId) → IsResumeId id → All IsIdByte (spelling id) }
{}

/// Where the entries are fewer than 2^32, the counts decide as the true numbers do, through any number
/// of wraps.
pub fn counts_decide_as_numbers()
    ensures { (id : ResumeId) (known : Facts) (a q h : ℕ) → HasCounts known a q → h < 2 ^ 32
        → decision id (Some known) h ≡ decision_of id known a q h }
{}
