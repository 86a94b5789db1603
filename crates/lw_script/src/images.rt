//! The images of a script, found by their names.
ghost use Rattle.std.specs.Prelude.{◌≡◌, ◌<◌, ◌^◌, ℕ, List, length, map, IfOk, OnOk, position, bytes_eq, if◌then◌else◌, Some, None};
ghost use Rattle.std.specs.Option.{option_or};
ghost use Rattle.std.specs.HashMap.{get_by_text};
ghost use Rattle.serde_json.specs.View.{view};
ghost use Rattle.lw_model.specs.ScriptShape.{image_in, images_in, place_of};
ghost use Rattle.lw_script.specs.Fitted.{fitted, fitted_image};

use crate::value::{text_under, values_under, whole_under};
use indexmap::IndexMap;
use lw_base::NoMemory;
use lw_model::{ImageOf, Text};
use serde_json::Value;
use std::alloc::Global;
use std::cmp;

/// The images that a value lists, and the place of each by its name: of two of one name, that of the first.
#[derive(Drop)]
pub struct Images {
    list: Vec<ImageOf>,
    places: IndexMap<String, u32>,
    ghost found: { (name : List ℕ) → get_by_text places name ≡ position (λ i. bytes_eq name i.name) list.items },
    ghost few: { length list.items < 2 ^ 32 },
}

impl Images {
    /// Reads the images of a script's value.
    pub fn read(alloc: Global, script: &Value) -> Result<Images, NoMemory>
        requires { length (images_in (view script.now)) < 2 ^ 32 }
        ensures { IfOk result (λ r. r.list.items ≡ map fitted_image (map image_in (images_in (view script.now)))) }
    {
        let list = read_images(alloc, script)?;
        let places = places_of(alloc, list.as_slice())?;
        Ok(Images { list, places })
    }

    /// The place of the image of this name, and the number of images where there is none.
    pub fn place_of(&self, name: &str) -> u32
        ensures { result ≡ place_of (map (λ i. i.name) self.now.list.items) name.now }
    {
        match self.places.get(name) {
            Some(place) => *place,
            None => self.list.len() as u32,
        }
    }

    /// The images alone.
    pub fn into_list(self) -> Vec<ImageOf>
        ensures { result.items ≡ self.list.items }
    {
        self.list
    }
}

fn read_images(alloc: Global, script: &Value) -> Result<Vec<ImageOf>, NoMemory>
    ensures { IfOk result (λ r. r.items ≡ map fitted_image (map image_in (images_in (view script.now)))) }
{
    let values = values_under(script, "images");
    let mut list = Vec::with_capacity(alloc, values.len())?;
    for value in values {
        list.push(read_image(alloc, value)?)?;
    }
    Ok(list)
}

fn read_image(alloc: Global, value: &Value) -> Result<ImageOf, NoMemory>
    ensures { IfOk result (λ i. i ≡ fitted_image (image_in (view value.now))) }
{
    let name = text_under(value, "name").unwrap_or("");
    let block = whole_under(value, "block").unwrap_or(0);
    let blocks = whole_under(value, "blocks").unwrap_or(0);
    Ok(ImageOf {
        name: Text::from_string(String::from_str(alloc, name)?),
        block: fitted(block),
        blocks,
    })
}

/// The number itself, or the greatest of 32 bits where that is less. Both break the same rules.
pub fn fitted(n: u64) -> u32
    ensures { result ≡ fitted n }
{
    cmp::min(n, u32::MAX as u64) as u32
}

fn places_of(alloc: Global, list: &[ImageOf]) -> Result<IndexMap<String, u32>, NoMemory>
    requires { length list.now < 2 ^ 32 }
    ensures { IfOk result (λ m. (name : List ℕ) →
        get_by_text m name ≡ position (λ i. bytes_eq name i.name) list.now) }
{
    let mut places = IndexMap::new(alloc);
    for (place, image) in list.iter().enumerate() {
        note(alloc, &mut places, image.name.as_str(), place as u32)?;
    }
    Ok(places)
}

// Gives a name its place, unless it has one already.
fn note(
    alloc: Global,
    places: &mut IndexMap<String, u32>,
    name: &str,
    place: u32,
) -> Result<(), NoMemory>
    ensures { OnOk result ((q : List ℕ) → get_by_text places.new q
        ≡ option_or (get_by_text places.old q) (if bytes_eq q name.now then Some place else None)) }
{
    if places.contains_key(name) {
        return Ok(());
    }
    places.insert(String::from_str(alloc, name)?, place)?;
    Ok(())
}
