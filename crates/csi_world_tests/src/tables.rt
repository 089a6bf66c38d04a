//! What is to come of each event, by the rules of the lifecycle: a table a module, of rows each of which begins with a new world. After each
//! event the audit finds nothing.
mod changed;
mod late;
mod modes;
mod used;

use crate::steps::{AllKnown, Does, ONE};
use csi_orchestrator::Known::{Maybe, No, Yes};

const N1: &[(&str, u64)] = &[("n1", 4)];

const TWO: &[(&str, u64)] = &[("n1", 4), ("n2", 4)];

const CREATE: Does = Does::Create(ONE);

const USE: Does = Does::Use("n1", "/a", ONE, false);

const STOP: Does = Does::Stop("n1", "/a");

// What is known of a volume that is published, of one that is only there, of one that may be attached, of one that is, and of none.
const PUBLISHED: AllKnown = (Yes, Yes, Yes, Yes);

const THERE: AllKnown = (Yes, No, No, No);

const MAYBE_ATTACHED: AllKnown = (Yes, Maybe, No, No);

const ATTACHED: AllKnown = (Yes, Yes, No, No);

const NOTHING: AllKnown = (No, No, No, No);
