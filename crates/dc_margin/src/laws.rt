//! What margins say of their conditions: laws about the definitions. They do nothing.

ghost use Rattle.std.specs.Prelude.{◌≡◌, ℕ, ◌+◌, ◌≤◌, ◌↔◌, None, Some, is_none, nat_le};
ghost use Rattle.std.specs.Option.{option_map};
ghost use Rattle.dc_cert.specs.Bounds.{numbers_of};
ghost use Rattle.dc_cert.specs.NamedRows.{NamedRows};
ghost use Rattle.dc_check.specs.Accepts.{AreNamed, Accepts};
ghost use Rattle.dc_check.specs.Verdict.{is_window, is_delay, is_closing, backlog_failure, delay_failure, verdict_of};
ghost use Rattle.dc_margin.specs.Margins.{is_kept, soon_margin_of, late_margin_of, age_limit_margin_of, queue_margin_of};
ghost use Rattle.dc_margin.specs.Margins.{window_margin_of, closing_margin_of, backlog_margin_of, delay_margin_of, delay_limit_margin_of};
ghost use Rattle.dc_margin.specs.Lines.{first_negative, windowless};
ghost use Rattle.dc_busy.specs.declared.limits.TheConstants.{LONGEST_WINDOW};

use dc_tables::Tables;

/// The margins of C02 to C07 and of C11 are negative exactly where the condition fails, of C04 and C06 for a window of
/// 1 or more, and of C06 for a floor that never falls and a delay of at most
/// [`LONGEST_WINDOW`](dc_busy::LONGEST_WINDOW); that of C08 where the least gap is below the least interval and the
/// delay, and that of C09 where the greatest gap and the delay are above the greatest one.
pub fn negative_where_it_fails()
    ensures window { (window : ℕ) → is_window window ≡ is_kept (Some (window_margin_of window)) }
    ensures closes { (cap floor : ℕ → ℕ) (window : ℕ) → is_closing cap floor window ≡ is_kept (Some (closing_margin_of cap floor window)) }
    ensures backlog { (cap floor : ℕ → ℕ) (window backlog : ℕ) → 1 ≤ window
        → is_none (backlog_failure cap floor window backlog) ≡ is_kept (Some (backlog_margin_of cap floor window backlog)) }
    ensures queue { (queue backlog : ℕ) → nat_le backlog queue ≡ is_kept (Some (queue_margin_of queue backlog)) }
    ensures delay_limit { (delay : ℕ) → is_delay delay ≡ is_kept (Some (delay_limit_margin_of delay)) }
    ensures delay { (cap floor : ℕ → ℕ) → ((d e : ℕ) → d ≤ e → floor d ≤ floor e) → (window delay : ℕ) → 1 ≤ window → delay ≤ LONGEST_WINDOW
        → is_none (delay_failure cap floor window delay) ≡ is_kept (Some (delay_margin_of cap floor window delay)) }
    ensures soon { (gap minimum delay : ℕ) → nat_le (minimum + delay) gap ≡ is_kept (Some (soon_margin_of gap minimum delay)) }
    ensures late { (gap maximum delay : ℕ) → nat_le (gap + delay) maximum ≡ is_kept (Some (late_margin_of gap maximum delay)) }
    ensures age_limit { (limit age : ℕ) → nat_le age limit ≡ is_kept (Some (age_limit_margin_of limit age)) }
{}

/// A certificate that lists the tables' buses, outputs and labels is accepted exactly where none of its margins is
/// negative, and its verdict is that of the first that is, in the order in which they are printed; the window that a
/// verdict names is left out.
pub fn the_verdict_is_the_first_negative_margin(tables: &Tables)
    ensures accepted { (claims : NamedRows) → AreNamed tables.now claims → (first_negative tables.now (numbers_of claims) ≡ None) ↔ Accepts tables.now claims }
    ensures verdict { (claims : NamedRows) → AreNamed tables.now claims
        → option_map windowless (verdict_of tables.now claims) ≡ first_negative tables.now (numbers_of claims) }
{
    tables.valid();
}
