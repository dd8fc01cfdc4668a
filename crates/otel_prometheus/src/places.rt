//! Labels in order of their names; values under one name are joined.

ghost use Rattle.std.specs.Prelude.{◌≡◌, OnOk};
ghost use Rattle.std.specs.String.{string_bytes};
ghost use Rattle.otel_prometheus.specs.Labels.{with_label};
ghost use Rattle.otel_prometheus.specs.Places.{IsPlace};

use crate::text::labels::Label;
use std::alloc::AllocError;
use std::cmp::Ordering;

/// The place of a label among labels in the order of their names.
#[derive(Clone, Copy)]
pub(crate) enum Place {
    /// The label at this index has the name.
    At(usize),
    /// No label has the name, and one that has belongs before this index.
    Before(usize),
}

/// Finds the place of a label of this name.
fn place_of(labels: &[Label], name: &[u8]) -> Place
    ensures { IsPlace labels.now name.now result }
{
    for (index, label) in labels.iter().enumerate() {
        match name.cmp(label.name().as_bytes()) {
            Ordering::Less => return Place::Before(index),
            Ordering::Equal => return Place::At(index),
            Ordering::Greater => {}
        }
    }
    Place::Before(labels.len())
}

/// Adds a label where it belongs, or adds the value to the label of this name.
pub(crate) fn add_label(
    labels: &mut Vec<Label>,
    name: String,
    value: Vec<u8>,
) -> Result<(), AllocError>
    ensures { OnOk result (labels.new.items ≡ with_label labels.old.items (string_bytes name, value.items)) }
{
    match place_of(labels.as_slice(), name.as_bytes()) {
        Place::At(index) => match labels.get_mut(index) {
            Some(label) => label.add(value.as_slice()),
            None => Err(AllocError),
        },
        Place::Before(index) => {
            match labels.insert(index, Label::new(name, value)) {
                Ok(()) => Ok(()),
                Err(_) => Err(AllocError),
            }
        }
    }
}
