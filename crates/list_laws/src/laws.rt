//! Each law is the contract of a function that does nothing.
ghost use Rattle.list_laws.specs.Laws.{ImagesInOrder, KeptInOrder, MadeClassByClass, MadeInOrder, OnceInRange, ClassByClass};

/// What is made of the items of a list, and those of them that pass a test, are permuted where the list is put in order.
pub fn in_order_is_permuted<A, B>()
    ensures made { MadeInOrder A B }
    ensures kept { KeptInOrder A }
    ensures images { ImagesInOrder A B }
{}

/// Items of which each is in just one class are the items of all classes, and what is made of them is so too.
pub fn class_by_class<A, K, B>()
    ensures items { ClassByClass A K }
    ensures made { MadeClassByClass A K B }
{}

/// Each number of a range is there once.
pub fn once_in_range()
    ensures { OnceInRange }
{}
