ghost use Rattle.std.specs.Prelude.{◌≡◌, ◌<◌, ◌≤◌, ◌+◌, ◌^◌, length, All, AllPairs, IfOk, OnOk};
ghost use Rattle.pt_net.specs.Systems.{places, size};
ghost use Rattle.linear_cert.specs.Sparse.{IsNarrow, IsWithin};

use linear_cert::{Constant, Form, Term};
use pt_net::PtNet;
use reduction_examples::Draft;
use std::alloc::Global;
use wide_sums::{Cell, Memory};

/// The net of these counts, and of instances with two inputs and two outputs each; a cell whose
/// count is 0 is none.
pub fn net(alloc: Global, counts: &[u64], rows: &[[Cell; 4]]) -> Result<PtNet, Memory>
    requires low { All (λ k. k < 2 ^ 63) counts.now }
    requires few { length counts.now < 2 ^ 32 }
    requires few_rows { length rows.now < 2 ^ 30 }
    ensures places { IfOk result (λ net. places net ≡ length counts.now) }
    ensures size { IfOk result (λ net. size net ≡ length rows.now) }
{
    let initial = Vec::from_slice(alloc, counts)?;
    let mut draft = Draft::new(alloc, initial, rows.len())?;
    for row in rows {
        draft.add(alloc, &[row[0], row[1]], &[row[2], row[3]])?;
    }
    Ok(draft.net())
}

// The terms of the coefficients of the places from 0 on.
fn terms(alloc: Global, coefficients: &[i64]) -> Result<Vec<Term>, Memory>
    requires few { length coefficients.now < 2 ^ 32 }
    ensures within { IfOk result (λ terms. All (λ t. t.place < length coefficients.now) terms.items) }
    ensures rising { IfOk result (λ terms. AllPairs (λ s t. s.place < t.place) terms.items) }
{
    let mut terms = Vec::new(alloc);
    for place in 0..coefficients.len() {
        terms.push(Term {
            place: place as u32,
            value: coefficients[place],
        })?;
    }
    Ok(terms)
}

/// The form with these coefficients on the places from 0 on.
pub fn form(alloc: Global, coefficients: &[i64], constant: Constant) -> Result<Form, Memory>
    requires few { length coefficients.now < 2 ^ 32 }
    requires narrow { IsNarrow constant }
    ensures { IfOk result (IsWithin (length coefficients.now)) }
{
    let terms = terms(alloc, coefficients)?;
    Ok(Form::new(terms, constant))
}
