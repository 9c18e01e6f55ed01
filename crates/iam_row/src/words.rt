// The words of reports.
ghost use Rattle.std.specs.Prelude.{◌≡◌, Some};
ghost use Rattle.iam_row.specs.Words as words;
ghost use Rattle.iam_row.specs.Words.{place_text, marked, layer_word};

use iam_layers::{Decision, Layer, Place};
use std::fmt::{self, Display, Formatter, Write};

/// The word of a layer, as `identity`.
pub fn layer_word(layer: Layer) -> &'static str
    ensures { result.now ≡ words.layer_word layer }
{
    match layer {
        Layer::Org => "org",
        Layer::Control => "control",
        Layer::Resource => "resource",
        Layer::Identity => "identity",
        Layer::Boundary => "boundary",
        Layer::Session => "session",
    }
}

/// The word of a decision, as `explicitDeny`.
pub fn decision_word(decision: Decision) -> &'static str
    ensures { result.now ≡ words.decision_word decision }
{
    match decision {
        Decision::Allowed => "allowed",
        Decision::ExplicitDeny => "explicitDeny",
        Decision::ImplicitDeny => "implicitDeny",
    }
}

/// A place as it is written, joined by `/`: its layer, the level in a layer that has levels, the number of the policy,
/// and that of the statement, as `org/1/0/2` or `identity/0/2`.
#[derive(Clone, Copy)]
pub struct PlaceText(pub Place);

impl Display for PlaceText {
    ghost output = { λ text. Some (place_text text.0) };

    fn fmt<W: Write>(&self, f: &mut Formatter<W>) -> Result<(), fmt::Error> {
        let Place {
            layer,
            level,
            policy,
            statement,
        } = self.0;
        let word = layer_word(layer);
        match layer {
            Layer::Org | Layer::Control => write!(f, "{word}/{level}/{policy}/{statement}"),
            Layer::Resource | Layer::Boundary => write!(f, "{word}/0/{statement}"),
            Layer::Identity | Layer::Session => write!(f, "{word}/{policy}/{statement}"),
        }
    }
}

/// The texts of places, each between marks, with something between one and the next.
#[derive(Clone, Copy)]
pub struct Places<'a> {
    pub places: &'a [Place],
    pub mark: &'static str,
    pub between: &'static str,
}

impl<'a> Places<'a> {
    /// These, between these marks, with this between one and the next.
    pub fn of(places: &'a [Place], mark: &'static str, between: &'static str) -> Places<'a>
        ensures { result ≡ record { places = places.entry; mark = mark.entry; between = between.entry } }
    {
        Places {
            places,
            mark,
            between,
        }
    }
}

impl Display for Places<'_> {
    ghost output = { λ all. Some (marked place_text all.mark.now all.between.now all.places.now) };

    #[tactic(auto, unfolding(crate::specs::Words::marked))]
    fn fmt<W: Write>(&self, f: &mut Formatter<W>) -> Result<(), fmt::Error> {
        let Places {
            places,
            mark,
            between,
        } = *self;
        let Some((first, rest)) = places.split_first() else {
            return Ok(());
        };
        let text = PlaceText(*first);
        write!(f, "{mark}{text}{mark}")?;
        for place in rest {
            let text = PlaceText(*place);
            write!(f, "{between}{mark}{text}{mark}")?;
        }
        Ok(())
    }
}

/// The words of layers, each between marks, with something between one and the next.
#[derive(Clone, Copy)]
pub struct Layers<'a> {
    pub layers: &'a [Layer],
    pub mark: &'static str,
    pub between: &'static str,
}

impl<'a> Layers<'a> {
    /// These, between these marks, with this between one and the next.
    pub fn of(layers: &'a [Layer], mark: &'static str, between: &'static str) -> Layers<'a>
        ensures { result ≡ record { layers = layers.entry; mark = mark.entry; between = between.entry } }
    {
        Layers {
            layers,
            mark,
            between,
        }
    }
}

impl Display for Layers<'_> {
    ghost output = { λ all. Some (marked layer_word all.mark.now all.between.now all.layers.now) };

    #[tactic(auto, unfolding(crate::specs::Words::marked))]
    fn fmt<W: Write>(&self, f: &mut Formatter<W>) -> Result<(), fmt::Error> {
        let Layers {
            layers,
            mark,
            between,
        } = *self;
        let Some((first, rest)) = layers.split_first() else {
            return Ok(());
        };
        let word = layer_word(*first);
        write!(f, "{mark}{word}{mark}")?;
        for layer in rest {
            let word = layer_word(*layer);
            write!(f, "{between}{mark}{word}{mark}")?;
        }
        Ok(())
    }
}
