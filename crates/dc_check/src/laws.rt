//! What an accepted certificate means for every admissible run: laws about the definitions, for calls that cite them.
//! They do nothing, but for the last, which answers a number.

ghost use Rattle.std.specs.Prelude.{◌≡◌, ℕ, ◌≤◌, ◌↔◌, None};
ghost use Rattle.dc_cert.specs.NamedRows.{NamedRows};
ghost use Rattle.dc_check.specs.Accepts.{Accepts};
ghost use Rattle.dc_check.specs.Certified.{AcceptedKeepTheirClaims, PolicedKeepTheirClaims};
ghost use Rattle.dc_check.specs.Numbers.{AcceptedKeepTheirNumbers, PolicedKeepTheirNumbers};
ghost use Rattle.dc_check.specs.Small.{small_tables, small_claims, small_run, SendsCopy};
ghost use Rattle.dc_check.specs.Verdict.{verdict_of};
ghost use Rattle.dc_event.specs.Admissible.{IsAdmissible};
ghost use Rattle.dc_tables.specs.TableRows.{AreValid};

use dc_tables::Tables;

/// Each certificate that is accepted for these tables keeps its claims in every admissible run of them.
pub fn accepted_certificates_keep_their_claims(tables: &Tables)
    ensures { AcceptedKeepTheirClaims tables.now }
{
    tables.valid();
}

/// Where all buses are policed, a certificate that is accepted keeps its claims in every run whose actors keep their
/// budgets, whatever the sources send.
pub fn policed_tables_keep_their_claims(tables: &Tables)
    ensures { PolicedKeepTheirClaims tables.now }
{
    tables.valid();
    accepted_certificates_keep_their_claims(tables);
}

/// Each certificate that is accepted for these tables keeps its windows, backlogs and delays in every admissible run of
/// them.
pub fn accepted_certificates_keep_their_numbers(tables: &Tables)
    ensures { AcceptedKeepTheirNumbers tables.now }
{
    tables.valid();
}

/// Where all buses are policed they hold in every run whose actors keep their budgets, whatever the sources send.
pub fn policed_tables_keep_their_numbers(tables: &Tables)
    ensures { PolicedKeepTheirNumbers tables.now }
{
    tables.valid();
    accepted_certificates_keep_their_numbers(tables);
}

/// The verdict on a certificate finds no fault exactly where the certificate is accepted.
pub fn no_fault_is_acceptance(tables: &Tables)
    ensures { (claims : NamedRows) → (verdict_of tables.now claims ≡ None) ↔ Accepts tables.now claims }
{
    let _buses = tables.bus_count();
}

/// The least age of its label, in ticks, with which a certificate of the small tables is accepted. So there are tables
/// and certificates that are accepted, and an admissible run of them in which a word is copied.
pub fn least_age_of_the_small_tables() -> u32
    ensures valid { AreValid small_tables }
    ensures accepted { Accepts small_tables (small_claims result) }
    ensures least { (age : ℕ) → Accepts small_tables (small_claims age) → result ≤ age }
    ensures value { result ≡ 24 }
    ensures admissible { IsAdmissible small_tables small_run }
    ensures copies { SendsCopy small_tables small_run }
{
    24
}
