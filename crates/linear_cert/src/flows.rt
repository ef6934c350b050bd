//! Flows, and what bounds and traps owe at the initial marking.
ghost use Rattle.std.specs.Prelude.{◌≡◌, ◌<◌, [], length};
ghost use Rattle.pt_net.specs.Systems.{places, size};
ghost use Rattle.cert_model.specs.Facts.{step_check, step_terms, Flow};
ghost use Rattle.linear_cert.specs.Sparse.{IsWithin, coefficient_in, form_of};
ghost use Rattle.linear_cert.specs.Fitting.{fitting};
ghost use Rattle.wide_sums.specs.Total.{total_of};
ghost use Rattle.linear_cert.specs.Checks.{base_check, instance_of, net_of};

use crate::forms::{Constant, Form};
use crate::tallies::{is_not_negative, plus_row, plus_term, plus_weighted};
use cert_model::Check;
use pt_net::{PtNet, Side};
use wide_sums::Sum;

/// What firing the instance adds to the weighted sum of the form's coefficients.
pub(crate) fn total_of_step(net: &PtNet, instance: u32, form: &Form) -> Option<Sum>
    requires instance { instance < size net.now }
    ensures { result ≡ fitting (total_of (step_terms (net_of net.now) (coefficient_in form.now.terms) (instance_of net.now instance))) }
{
    let put = plus_row(
        Some(Sum::zero()),
        form,
        net.cells(Side::Post, instance),
        false,
    );
    plus_row(put, form, net.cells(Side::Pre, instance), true)
}

/// Whether firing the instance keeps the weighted sum of the flow's coefficients.
///
/// `Wide` comes exactly where the absolute values of what it adds at each place and of what it takes
/// there add up past 2^127 - 1. The form's constant isn't asked.
pub fn flow_true(net: &PtNet, instance: u32, flow: &Form) -> Check
    requires instance { instance < size net.now }
    requires within { IsWithin (places net.now) flow.now }
    ensures { result ≡ step_check (net_of net.now) [] (Flow (form_of flow.now).coefficient) (instance_of net.now instance) }
{
    match total_of_step(net, instance, flow) {
        None => Check::Wide,
        Some(sum) if sum.value() == 0 => Check::True,
        Some(_) => Check::False,
    }
}

/// Whether the slack form of a bound or a trap isn't negative at the initial marking.
///
/// `Wide` comes exactly where its constant is out of range, or where the absolute values of its
/// terms there and of the constant add up past 2^127 - 1.
pub fn bound_true(net: &PtNet, bound: &Form) -> Check
    requires { IsWithin (places net.now) bound.now }
    ensures { result ≡ base_check (net_of net.now) (form_of bound.now) }
{
    let Constant::Value(constant) = bound.constant() else {
        return Check::Wide;
    };
    let sum = plus_weighted(Some(Sum::zero()), bound.terms(), net.initial_counts());
    is_not_negative(plus_term(sum, constant))
}
