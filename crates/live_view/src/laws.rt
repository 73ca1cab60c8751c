//! What follows from the definitions. The functions do nothing: their contracts are the laws.
ghost use Rattle.std.specs.Prelude.{◌≡◌, ◌≢◌, ◌⊎◌, ◌↔◌, ℕ, ◌≤◌, List, [], ◌∷◌, Contains, Option, Some, Ok, codes};
ghost use Rattle.std.specs.List.Sorted.{IsStrictlyIncreasing};
ghost use Rattle.coefficient_cache.specs.Caches.{IsCapacity};
ghost use Rattle.request_lines.specs.declared.requests.Request.{Request};
ghost use Rattle.request_lines.specs.Requests.{read_line};
ghost use Rattle.zoom_session.specs.declared.session.Session.{Session};
ghost use Rattle.zoom_session.specs.declared.view_spec.ViewSpec.{ViewSpec};
ghost use Rattle.live_view.specs.declared.live_lines.LiveLine.TheVariants.{Follow, Unfollow, Other};
ghost use Rattle.live_view.specs.Groups.{followers_of};
ghost use Rattle.live_view.specs.Lines.{live_line, SpellsWith};
ghost use Rattle.live_view.specs.Numbers.{with_number, without_number};
ghost use Rattle.live_view.specs.Replies.{FollowsUnfiltered, followers};
ghost use Rattle.live_view.specs.Laws.{EditsGoToFollowers, FollowedViewsFit, GroupsGoToFollowers};

use view_keys::laws::keys_of_a_view_are_few;

/// A line follows a session exactly where it spells so, and ends it exactly where it spells that.
pub fn lines_spell_followings()
    ensures follow { (line : List ℕ) (n : ℕ) → (live_line line ≡ Follow n) ↔ SpellsWith (codes "follow") n line }
    ensures unfollow { (line : List ℕ) (n : ℕ) → (live_line line ≡ Unfollow n) ↔ SpellsWith (codes "unfollow") n line }
    // a line that spells a request asks for neither
    ensures requests { (line : List ℕ) (request : Request) → read_line line ≡ Ok request → live_line line ≡ Other }
{}

/// Numbers that rise go on to rise with one more and with one less, and have just these.
pub fn numbers_are_sets()
    ensures more { (n m : ℕ) (numbers : List ℕ) → Contains (with_number n numbers) m ↔ ((m ≡ n) ⊎ Contains numbers m) }
    ensures fewer { (n m : ℕ) (numbers : List ℕ) → Contains (without_number n numbers) m ↔ (Contains numbers m × (m ≢ n)) }
    ensures more_rise { (n : ℕ) (numbers : List ℕ) → IsStrictlyIncreasing numbers → IsStrictlyIncreasing (with_number n numbers) }
    ensures fewer_rise { (n : ℕ) (numbers : List ℕ) → IsStrictlyIncreasing numbers → IsStrictlyIncreasing (without_number n numbers) }
{}

/// The sessions that an edit of a series is pushed to are just the followed ones whose last view is one of that
/// series, each of them once, by rising number.
pub fn edits_go_to_followers()
    ensures just { EditsGoToFollowers }
    ensures rising { (series : ℕ) (sessions : List Session) (followed : List ℕ) →
        IsStrictlyIncreasing followed → IsStrictlyIncreasing (followers (Some series) sessions followed) }
{}

/// Edits that are done together are pushed to just the followed sessions whose last view is one of a series that one of
/// them changed, each of them once, by rising number. One edit is pushed to the same sessions as alone.
pub fn groups_go_to_followers()
    ensures just { GroupsGoToFollowers }
    ensures rising { (series : List (Option ℕ)) (sessions : List Session) (followed : List ℕ) →
        IsStrictlyIncreasing followed → IsStrictlyIncreasing (followers_of series sessions followed) }
    ensures one { (series : Option ℕ) (sessions : List Session) (followed : List ℕ) →
        followers_of (series ∷ []) sessions followed ≡ followers series sessions followed }
{}

/// Where a session is followed by a view without a filter, no view without one on as many columns needs more
/// coefficients than its client keeps, whatever the window and the range; and there are at most 1,247 columns. So
/// where zooms keep the columns, no push is too large.
pub fn followed_views_fit()
    ensures needed { FollowedViewsFit }
    ensures columns { (session : Session) (view : ViewSpec) → FollowsUnfiltered session view → IsCapacity session.cache.capacity
        → view.grid.w ≤ 1247 }
{
    keys_of_a_view_are_few();
}
