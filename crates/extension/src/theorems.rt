// What is known of every extension, as the contract of a function that does nothing.
ghost use Rattle.extension.specs.Extension.{ExtensionsJudged, ExtensionsAreFields};

// An extension is refused for its modulus exactly if that is a product, and one that is made is a field.
pub fn law_of_extensions()
    ensures judged { ExtensionsJudged }
    ensures fields { ExtensionsAreFields }
{}
