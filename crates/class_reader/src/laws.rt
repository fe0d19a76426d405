//! Laws of reading, each as the contract of a function that does nothing.

ghost use Rattle.class_reader.specs.Laws.{FaultsStay, FaultsAreFinal, PlacesAreWithin, FaultsHaveAByte, TruncatedIsTheEnd, FaultsComeFirst, CutsAreTruncated, FilesEnd, EncodingsAreRead, FilesAreEncoded};

/// A fault other than Truncated stays the same, whatever stands behind the bytes.
pub fn faults_stay()
    ensures { FaultsStay }
{}

/// Bytes with a fault other than Truncated are the front of no class file.
pub fn faults_are_final()
    ensures { FaultsAreFinal }
{}

/// A fault's place isn't before the bytes, so its offset is the count of bytes before it.
pub fn places_are_within()
    ensures { PlacesAreWithin }
{}

/// A fault other than Truncated stands at one of the bytes.
pub fn faults_have_a_byte()
    ensures { FaultsHaveAByte }
{}

/// Truncated stands at the end of the bytes.
pub fn truncated_is_the_end()
    ensures { TruncatedIsTheEnd }
{}

/// Bytes that end before the place of a fault are Truncated, so they have no fault of their own.
pub fn faults_come_first()
    ensures { FaultsComeFirst }
{}

/// Each front of a class file is Truncated.
pub fn cuts_are_truncated()
    ensures { CutsAreTruncated }
{}

/// The first byte behind a class file is a fault.
pub fn files_end()
    ensures { FilesEnd }
{}

/// Each encoding of a well-formed class file is read as that file.
pub fn encodings_are_read()
    ensures { EncodingsAreRead }
{}

/// Bytes that are read are an encoding of the file, which is well formed.
pub fn files_are_encoded()
    ensures { FilesAreEncoded }
{}
