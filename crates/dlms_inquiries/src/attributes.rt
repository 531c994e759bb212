//! Attributes by their names: the object list if the class of one is not known, each value, and the scaler of a register's.

ghost use Rattle.dlms_inquiries.specs.Attributes.{OnlyReads};

use crate::classes::{class_by_name, class_named, object_list, scale_of, scaler_of};
use crate::script::{Question, Script};
use dlms_client::Answer;
use dlms_data::Descriptor;
use dlms_text::{Name, ValueFault};
use std::alloc::{AllocError, Global};

/// The attribute of what most classes keep, which is requested if a name has no number.
const SECOND: u8 = 2;

/// What came of an attribute.
#[derive(Drop)]
pub struct Reading {
    /// The attribute; none if the class of its object was not found, so that it was not requested.
    pub attribute: Option<Descriptor>,
    /// The meter's answer, if it was requested.
    pub answer: Answer,
    /// The encoding of its value, if that came.
    pub value: Vec<u8>,
    /// The scaler and the unit of a register, if the meter gave them.
    pub scale: Option<(i8, u8)>,
}

/// The request that was made last.
#[derive(Clone, Copy)]
enum Stage {
    Nothing,
    ObjectList,
    Value(Descriptor),
    Scale,
}

/// The requests for attributes by their names, one after another, and what came of each so far. If the meter refuses one, the others are
/// requested all the same.
#[derive(Drop)]
pub struct Attributes {
    alloc: Global,
    names: Vec<Name>,
    /// The class of each, as far as it is known.
    classes: Vec<Option<u16>>,
    readings: Vec<Reading>,
    stage: Stage,
}

/// The value that was requested, if an encoding came with this answer.
fn value_in(alloc: Global, answer: Answer, value: &[u8]) -> Result<Vec<u8>, AllocError> {
    match answer {
        Answer::Value => Vec::from_slice(alloc, value),
        _ => Ok(Vec::new(alloc)),
    }
}

impl Attributes {
    /// No name.
    pub fn new(alloc: Global) -> Self {
        Attributes {
            alloc,
            names: Vec::new(alloc),
            classes: Vec::new(alloc),
            readings: Vec::new(alloc),
            stage: Stage::Nothing,
        }
    }

    /// Adds a name after the others.
    pub fn add(&mut self, name: Name) -> Result<(), AllocError> {
        self.names.push(name)?;
        self.classes.push(class_by_name(name.code))?;
        Ok(())
    }

    /// What came of each name, in their order, as far as answers came.
    pub fn readings(&self) -> &[Reading] {
        self.readings.as_slice()
    }

    /// The class of the name with this number: that of its name in each meter, or the one that the object list has.
    fn listed(&self, list: &[u8], number: usize) -> Result<Option<u16>, AllocError> {
        if let Some(Some(class)) = self.classes.get(number) {
            return Ok(Some(*class));
        }
        let Some(name) = self.names.get(number) else {
            return Ok(None);
        };
        match class_named(self.alloc, list, name.code) {
            Ok(class) => Ok(class),
            Err(ValueFault::Form) => Ok(None),
            Err(ValueFault::Memory) => Err(AllocError),
        }
    }

    /// Finds the classes in an object list.
    fn find_classes(&mut self, list: &[u8]) -> Result<(), AllocError> {
        for number in 0..self.classes.len() {
            let class = self.listed(list, number)?;
            if let Some(kept) = self.classes.get_mut(number) {
                *kept = class;
            }
        }
        Ok(())
    }

    /// Keeps what came of an attribute.
    fn keep(
        &mut self,
        attribute: Option<Descriptor>,
        answer: Answer,
        value: Vec<u8>,
    ) -> Result<(), AllocError> {
        self.readings.push(Reading {
            attribute,
            answer,
            value,
            scale: None,
        })?;
        Ok(())
    }

    /// Takes the answer to the last request.
    fn take(&mut self, answer: Answer, value: &[u8]) -> Result<(), AllocError> {
        match self.stage {
            Stage::Nothing => Ok(()),
            Stage::ObjectList if answer == Answer::Value => self.find_classes(value),
            Stage::ObjectList => Ok(()),
            Stage::Value(attribute) => {
                let value = value_in(self.alloc, answer, value)?;
                self.keep(Some(attribute), answer, value)
            }
            Stage::Scale => {
                if answer == Answer::Value
                    && let Some(reading) = self.readings.last_mut()
                {
                    reading.scale = scale_of(value);
                }
                Ok(())
            }
        }
    }

    /// The attribute with the scaler of the value that came last, if it has one.
    fn scaler(&self, answer: Option<Answer>) -> Option<Descriptor> {
        match (self.stage, answer) {
            (Stage::Value(attribute), Some(Answer::Value)) => scaler_of(attribute),
            _ => None,
        }
    }

    /// The attribute that the name with this number means, if its class is known.
    fn attribute(&self, number: usize) -> Option<Descriptor> {
        let name = self.names.get(number)?;
        match self.classes.get(number) {
            Some(Some(class)) => Some(Descriptor {
                class: *class,
                name: name.code,
                id: name.number.unwrap_or(SECOND),
            }),
            _ => None,
        }
    }

    /// The attribute that is requested next; those whose class is not known are left out.
    fn next_attribute(&mut self) -> Result<Option<Descriptor>, AllocError> {
        for number in self.readings.len()..self.names.len() {
            if let Some(attribute) = self.attribute(number) {
                return Ok(Some(attribute));
            }
            self.keep(None, Answer::Value, Vec::new(self.alloc))?;
        }
        Ok(None)
    }

    /// Whether the class of a name is not known, and the object list was not requested.
    fn needs_list(&self) -> bool {
        matches!(self.stage, Stage::Nothing) && self.classes.iter().any(|class| class.is_none())
    }

    /// Chooses the next request.
    fn choose(&mut self, answer: Option<Answer>) -> Result<Option<Question>, AllocError>
        ensures { OnlyReads result }
    {
        if self.needs_list() {
            self.stage = Stage::ObjectList;
            return Ok(Some(Question::Get(object_list())));
        }
        if let Some(scaler) = self.scaler(answer) {
            self.stage = Stage::Scale;
            return Ok(Some(Question::Get(scaler)));
        }
        let Some(attribute) = self.next_attribute()? else {
            return Ok(None);
        };
        self.stage = Stage::Value(attribute);
        Ok(Some(Question::Get(attribute)))
    }
}

impl Script for Attributes {
    ghost use Rattle.dlms_inquiries.specs.Attributes.{AttributesFollow};

    ghost follows = { AttributesFollow };

    fn next(
        &mut self,
        answer: Option<Answer>,
        value: &[u8],
    ) -> Result<Option<Question>, AllocError> {
        if let Some(answer) = answer {
            self.take(answer, value)?;
        }
        self.choose(answer)
    }
}
