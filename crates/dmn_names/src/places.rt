//! Where what is named stands in a model.
ghost use Rattle.std.specs.Prelude.{◌≡◌, map, string_bytes};
ghost use Rattle.dmn_form.specs.FormView.{texts_view};
ghost use Rattle.std.proofs.Props.{props};

use crate::index::Index;
use dmn_form::{WrittenModel, WrittenService};
use std::alloc::{AllocError, Global};

/// Where each input and each decision of a model stands: first the inputs, and then the decisions, in the order in which they
/// are written.
#[derive(Drop)]
pub struct Places<'a> {
    model: &'a WrittenModel,
    inputs: Index<'a>,
    decisions: Index<'a>,
    ghost inputs_placed: { inputs ≡ texts_view model.now.inputs } by { Prim.hlevel props },
    ghost decisions_placed: { decisions ≡ map (λ d. string_bytes d.name) model.now.decisions.items } by { Prim.hlevel props },
}

/// What a name is to name.
#[derive(Clone, Copy)]
enum Kind {
    Value,
    Input,
    Decision,
}

/// The lists of a service by places.
#[derive(Debug, Drop)]
pub struct ServicePlaces {
    /// The decisions whose values it answers.
    pub outputs: Vec<usize>,
    /// The decisions that it evaluates on the way.
    pub encapsulated: Vec<usize>,
    /// The decisions whose values a request brings.
    pub input_decisions: Vec<usize>,
    /// The inputs whose values a request brings.
    pub input_data: Vec<usize>,
}

impl<'a> Places<'a> {
    ghost use Rattle.std.specs.Prelude.{List, [], IfOk, IfSome, option_map, is_none, length};
    ghost use Rattle.dmn_form.specs.ModelView.{model_view, service_view};
    ghost use Rattle.dmn_names.specs.Names.{has_unknown_name};
    ghost use Rattle.dmn_names.specs.Places.{input_place, decision_place, value_place, needs_by_place, placed_service, ArePlacesOf, has_stranger};
    ghost use Rattle.dmn_graph.specs.Needs.{AreNeedsBelow};
    ghost use Rattle.feel_value.specs.Found.{each};
    ghost use Rattle.dmn_names.specs.PlacedModel.{placed_model, needs_view, placed_service_view};
    ghost use Rattle.dmn_names.specs.Kinds.{place_as};

    /// The places of a model.
    pub fn new(alloc: Global, model: &'a WrittenModel) -> Result<Places<'a>, AllocError>
        ensures { IfOk result (λ p. placed_model p ≡ model_view model.now) }
    {
        let inputs = Index::of(alloc, &model.inputs)?;
        let decisions = Index::of(alloc, &model.decisions)?;
        Ok(Places {
            model,
            inputs,
            decisions,
        })
    }

    /// The place of the input of this name.
    pub fn input(&self, name: &str) -> Option<usize>
        ensures { result ≡ input_place (placed_model self.now) name.now }
    {
        self.input_near(0, name)
    }

    /// The place of the decision of this name.
    pub fn decision(&self, name: &str) -> Option<usize>
        ensures { result ≡ decision_place (placed_model self.now) name.now }
    {
        self.decision_near(0, name)
    }

    /// The place of the input or decision of this name; of an input and a decision of one name, the input's.
    pub fn of(&self, name: &str) -> Option<usize>
        ensures { result ≡ value_place (placed_model self.now) name.now }
    {
        self.value_near(0, name)
    }

    // The same three, each with a guess at the place.

    fn input_near(&self, guess: usize, name: &str) -> Option<usize>
        ensures { result ≡ input_place (placed_model self.now) name.now }
    {
        self.inputs.place(guess, name)
    }

    fn decision_near(&self, guess: usize, name: &str) -> Option<usize>
        ensures { result ≡ decision_place (placed_model self.now) name.now }
    {
        let inputs = self.model.inputs.len();
        let place = self.decisions.place(guess.saturating_sub(inputs), name)?;
        Some(inputs + place)
    }

    fn value_near(&self, guess: usize, name: &str) -> Option<usize>
        ensures { result ≡ value_place (placed_model self.now) name.now }
    {
        let Some(place) = self.input_near(guess, name) else {
            return self.decision_near(guess, name);
        };
        Some(place)
    }

    fn find(&self, kind: Kind, guess: usize, name: &str) -> Option<usize>
        ensures { result ≡ place_as kind (placed_model self.now) name.now }
    {
        match kind {
            Kind::Value => self.value_near(guess, name),
            Kind::Input => self.input_near(guess, name),
            Kind::Decision => self.decision_near(guess, name),
        }
    }

    /// The place of each of these names, or None where one names nothing of this kind. Often each stands behind the one before it.
    fn places_of(
        &self,
        alloc: Global,
        kind: Kind,
        names: &[String],
    ) -> Result<Option<Vec<usize>>, AllocError>
        ensures { IfOk result (λ o. option_map (λ v. v.items) o ≡ each (place_as kind (placed_model self.now)) (map string_bytes names.now)) }
    {
        let mut places = Vec::with_capacity(alloc, names.len())?;
        let mut guess = 0;
        for name in names {
            let Some(place) = self.find(kind, guess, name.as_str()) else {
                return Ok(None);
            };
            places.push(place)?;
            guess = place.saturating_add(1);
        }
        Ok(Some(places))
    }

    /// For each input the places of what it needs: none.
    fn needs_of_inputs(&self, alloc: Global) -> Result<Vec<Vec<usize>>, AllocError>
        ensures { IfOk result (λ v. needs_view v ≡ map (λ n. []) (placed_model self.now).inputs) }
    {
        let mut needs = Vec::new(alloc);
        for _input in &self.model.inputs {
            needs.push(Vec::new(alloc))?;
        }
        Ok(needs)
    }

    fn needs_of_all(&self, alloc: Global) -> Result<Option<Vec<Vec<usize>>>, AllocError>
        ensures { IfOk result (λ o. option_map needs_view o ≡ needs_by_place (placed_model self.now)) }
    {
        let mut needs = self.needs_of_inputs(alloc)?;
        for decision in &self.model.decisions {
            let Some(places) = self.places_of(alloc, Kind::Value, &decision.needs)? else {
                return Ok(None);
            };
            needs.push(places)?;
        }
        Ok(Some(needs))
    }

    /// For each place the places of what it needs, or None where a needed name is neither an input's nor a decision's. An
    /// input needs nothing.
    pub fn needs(&self, alloc: Global) -> Result<Option<Vec<Vec<usize>>>, AllocError>
        ensures places { IfOk result (λ o. option_map needs_view o ≡ needs_by_place (placed_model self.now)) }
        ensures unknown { IfOk result (λ o. is_none o ≡ has_unknown_name (placed_model self.now)) }
        ensures inside { IfOk result (λ o. IfSome o (λ v. AreNeedsBelow (length v.items) (needs_view v))) }
    {
        let needs = self.needs_of_all(alloc)?;
        Ok(needs)
    }

    fn service_places(
        &self,
        alloc: Global,
        service: &WrittenService,
    ) -> Result<Option<ServicePlaces>, AllocError>
        ensures { IfOk result (λ o. option_map placed_service_view o ≡ placed_service (placed_model self.now) (service_view service.now)) }
    {
        let Some(outputs) = self.places_of(alloc, Kind::Decision, &service.outputs)? else {
            return Ok(None);
        };
        let Some(encapsulated) = self.places_of(alloc, Kind::Decision, &service.encapsulated)?
        else {
            return Ok(None);
        };
        let Some(input_decisions) = self.places_of(alloc, Kind::Decision, &service.input_decisions)?
        else {
            return Ok(None);
        };
        let Some(input_data) = self.places_of(alloc, Kind::Input, &service.input_data)? else {
            return Ok(None);
        };
        Ok(Some(ServicePlaces {
            outputs,
            encapsulated,
            input_decisions,
            input_data,
        }))
    }

    /// The places of what a service lists, or None where an output, an encapsulated decision or an input decision is no
    /// decision, or an input data is no input.
    pub fn service(
        &self,
        alloc: Global,
        service: &WrittenService,
    ) -> Result<Option<ServicePlaces>, AllocError>
        ensures places { IfOk result (λ o. option_map placed_service_view o ≡ placed_service (placed_model self.now) (service_view service.now)) }
        ensures strangers { IfOk result (λ o. is_none o ≡ has_stranger (placed_model self.now) (service_view service.now)) }
        ensures inside { IfOk result (λ o. IfSome o (λ s. ArePlacesOf (placed_model self.now) (placed_service_view s))) }
    {
        let places = self.service_places(alloc, service)?;
        Ok(places)
    }
}
