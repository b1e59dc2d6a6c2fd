//! The columns of a schema, surveyed.
ghost use Rattle.std.specs.Prelude.{◌≡◌, IfOk, count_by};
ghost use Rattle.uses.specs.Survey.{IsCount, ArePlaces, IsGeometry, IsFaulty, is_geometry, places_of};

use arrow_values::Field;
use geoarrow_columns::{Column, check_columns};
use std::alloc::{AllocError, Global};

/// What a checker of files wants to know of a schema.
#[derive(Debug, PartialEq, Eq, Drop)]
pub struct Survey {
    /// How many columns hold geometries: a GeoArrow type is read from the field.
    pub geometries: usize,
    /// The places of the faulty columns, from 0 on and in order.
    pub faulty: Vec<usize>,
}

/// Surveys the columns of a schema, as a checker of GeoParquet files does (GeoArrow, "Extension types"): it counts those
/// that hold geometries, and lists those that are refused. Errs only when out of memory.
#[tactic(auto, using(crate::proofs::Surveys::counted, crate::proofs::Surveys::listed))]
pub fn survey_columns(alloc: Global, fields: &[Field]) -> Result<Survey, AllocError>
    ensures geometries { IfOk result (λ s. IsCount IsGeometry fields.now s.geometries) }
    ensures faulty { IfOk result (λ s. ArePlaces IsFaulty 0 fields.now s.faulty.items) }
{
    let columns = check_columns(alloc, fields)?;
    let geometries = count_geometries(&columns);
    let faulty = faulty_places(alloc, &columns)?;
    Ok(Survey { geometries, faulty })
}

/// How many of the columns hold geometries.
fn count_geometries(columns: &[Column]) -> usize
    ensures { result ≡ count_by is_geometry columns.now }
{
    let mut count = 0;
    for column in columns {
        if let Column::Geometry(_) = column {
            count += 1;
        }
    }
    count
}

/// The places of the faulty columns, in order.
fn faulty_places(alloc: Global, columns: &[Column]) -> Result<Vec<usize>, AllocError>
    ensures { IfOk result (λ places. places.items ≡ places_of 0 columns.now) }
{
    let mut places = Vec::new(alloc);
    for place in 0..columns.len() {
        if let Column::Faulty(_) = columns[place] {
            places.push(place)?;
        }
    }
    Ok(places)
}
