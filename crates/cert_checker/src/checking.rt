//! The check of a certificate.
ghost use Rattle.std.specs.Prelude.{◌≡◌, ◌≤◌, IsTrue, length};
ghost use Rattle.cert_format.specs.Nodes.{nodes_of};
ghost use Rattle.cert_checker.specs.declared.shown.Shown.TheVariants as form;
ghost use Rattle.cert_checker.specs.Branching.{HasRoom};
ghost use Rattle.cert_checker.specs.Shown.{branching_of, IsAnswerOf, IsCheckAnswer};
ghost use Rattle.cert_checker.specs.Walking.{EndsWith};

use crate::answer::{CheckAnswer, Reason};
use crate::shown::{Shown, shown_by};
use crate::walk::Walk;
use cert_format::{Certificate, Line};
use plan_split_pairs::form_pairs;
use sem_query::{Pair, Query};

// The answer where no node follows. A walk that has somewhere to go on is not whole, and the fault is behind the last node.
fn ended(q: &Query, shown: Shown, walk: &Walk) -> CheckAnswer
    requires { walk.now.nodes ≤ 262144 }
    ensures { EndsWith q.now shown walk.now result }
{
    if walk.more {
        CheckAnswer::No {
            place: walk.nodes + 1,
            reason: Reason::Shape,
        }
    } else {
        CheckAnswer::Yes {
            decision: walk.so_far.finish(q, shown),
            parts: walk.leaves,
        }
    }
}

// Checks the nodes of some lines as those of a tree of that form, whose pairs these are.
fn check_lines(q: &Query, shown: Shown, pairs: &[Pair], lines: &[Line]) -> CheckAnswer
    requires pairs { pairs.now ≡ (branching_of shown q.now).pairs }
    requires room { HasRoom (branching_of shown q.now) }
    requires few { length (nodes_of lines.now) ≤ 262144 }
    ensures { IsAnswerOf shown q.now (nodes_of lines.now) result }
{
    let mut walk = Walk::new(q, shown);
    for (i, line) in lines.iter().enumerate() {
        if let Err(reason) = walk.step(q, shown, pairs, line, &lines[i + 1..]) {
            return CheckAnswer::No {
                place: walk.nodes,
                reason,
            };
        }
    }
    ended(q, shown, &walk)
}

// Checks the nodes of some lines as those of a tree of the split form. Where there is no room for its pairs the first node breaks a rule.
fn check_split(q: &Query, lines: &[Line]) -> CheckAnswer
    requires compact { IsTrue q.now.compact }
    requires few { length (nodes_of lines.now) ≤ 262144 }
    ensures { IsAnswerOf form.Split q.now (nodes_of lines.now) result }
{
    match form_pairs(q) {
        Some(pairs) => check_lines(q, Shown::Split, pairs.as_slice(), lines),
        None => CheckAnswer::No {
            place: 1,
            reason: Reason::Shape,
        },
    }
}

/// Returns whether a certificate is good for the query, whoever made it: then the number of the parts and the decision on the query, by the form that
/// the certificate shows; else the place of the first fault, and the rule that is broken there. It takes no memory, and knows nothing of how a
/// certificate is made.
pub fn check(q: &Query, certificate: &Certificate) -> CheckAnswer
    ensures { IsCheckAnswer q.now (nodes_of certificate.now) result }
{
    let lines = certificate.lines();
    match shown_by(q, lines) {
        Shown::Plain => check_lines(q, Shown::Plain, q.pairs().as_slice(), lines),
        Shown::Whole => check_lines(q, Shown::Whole, &[], lines),
        Shown::Split => check_split(q, lines),
    }
}
